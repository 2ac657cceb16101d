//! Classes of bytes, and how many bytes of a class a text begins with.

ghost use Rattle.std.specs.Prelude.{◌≡◌, ◌≤◌, ◌↔◌, IsTrue, length};
ghost use Rattle.std.specs.List.{prefix_len};
ghost use Rattle.p21_text.specs.ItemShapes.{hex_byte};
ghost use Rattle.p21_text.specs.Spelling.{IsDigit, IsUpper};
ghost use Rattle.p21_text.specs.Runs.{IsNameByte, IsRun};

/// `A` to `Z` and `_`.
#[inline]
pub(crate) fn is_upper(byte: u8) -> bool
    ensures { IsTrue result ↔ IsUpper byte }
{
    matches!(byte, b'A'..=b'Z' | b'_')
}

/// `0` to `9`.
#[inline]
pub(crate) fn is_digit(byte: u8) -> bool
    ensures { IsTrue result ↔ IsDigit byte }
{
    byte.is_ascii_digit()
}

#[inline]
fn is_name_byte(byte: u8) -> bool
    ensures { IsTrue result ↔ IsNameByte byte }
{
    is_upper(byte) || is_digit(byte)
}

/// A digit to the base 16, of either case.
#[inline]
pub(crate) fn is_hex(byte: u8) -> bool
    ensures { result ≡ hex_byte byte }
{
    byte.is_ascii_digit() || (byte >= b'A' && byte <= b'F') || (byte >= b'a' && byte <= b'f')
}

/// How many digits a text begins with.
#[inline]
pub(crate) fn digit_run(text: &[u8]) -> usize
    ensures { IsRun IsDigit text.now result }
{
    for (i, byte) in text.iter().enumerate() {
        if !is_digit(*byte) {
            return i;
        }
    }
    text.len()
}

/// How many letters and digits a text begins with.
#[inline]
pub(crate) fn name_run(text: &[u8]) -> usize
    ensures { IsRun IsNameByte text.now result }
{
    for (i, byte) in text.iter().enumerate() {
        if !is_name_byte(*byte) {
            return i;
        }
    }
    text.len()
}

/// How many digits to the base 16 a text begins with.
pub(crate) fn hex_run(text: &[u8]) -> usize
    ensures run { result ≡ prefix_len hex_byte text.now }
    ensures within { result ≤ length text.now }
{
    text.iter().take_while(|byte| is_hex(**byte)).count()
}
