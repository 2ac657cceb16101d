//! The words of a schema's text, as it spells them.

ghost use Rattle.std.specs.Prelude.{◌<◌, ◌≤◌, ◌+◌, length, IfSome};

/// Whether a name may begin with the byte.
fn is_letter(byte: u8) -> bool {
    byte.is_ascii_alphabetic()
}

/// Whether a name may hold the byte.
fn is_part(byte: u8) -> bool {
    byte.is_ascii_alphanumeric() || byte == b'_'
}

/// Whether some bytes are one that stands by itself; a remark also begins with a parenthesis.
fn is_symbol(bytes: &[u8]) -> bool {
    matches!(bytes, [symbol] if b";:,()[]\\".contains(symbol))
}

/// How many bytes of a name stand at the front.
fn part_len(text: &[u8]) -> usize
    ensures { result ≤ length text.now }
{
    text.iter().take_while(|byte| is_part(**byte)).count()
}

/// How many bytes stand before the end of the line.
fn line_len(text: &[u8]) -> usize
    ensures { result ≤ length text.now }
{
    text.iter().take_while(|byte| **byte != b'\n').count()
}

/// How many bytes stand before a quote of this kind. A doubled apostrophe is one that closes and one that opens.
fn quoted_len(text: &[u8], quote: u8) -> usize
    ensures { result ≤ length text.now }
{
    text.iter().take_while(|byte| **byte != quote).count()
}

/// How many bytes a remark has whose first byte is the first of the text, up to the `*)` that closes it; others may be open in it.
fn remark_len(text: &[u8]) -> usize
    ensures { result ≤ length text.now }
{
    let mut depth: usize = 0;
    let mut before = b' ';
    for (place, byte) in text.iter().enumerate() {
        let pair = (before, *byte);
        before = *byte;
        if pair == (b'(', b'*') {
            depth = depth.saturating_add(1);
            before = b' ';
        } else if pair == (b'*', b')') {
            depth = depth.saturating_sub(1);
            before = b' ';
            if depth == 0 {
                return place + 1;
            }
        }
    }
    text.len()
}

/// How many bytes the name, the remark, the string or the other byte at the front has.
fn front_len(text: &[u8]) -> usize
    requires { 0 < length text.now }
    ensures some { 0 < result }
    ensures within { result ≤ length text.now }
{
    let (first, rest) = (text[0], &text[1..]);
    if is_letter(first) {
        1 + part_len(rest)
    } else if first == b'\'' || first == b'"' {
        (quoted_len(rest, first) + 2).min(text.len())
    } else if text.starts_with(b"--") {
        1 + line_len(rest)
    } else if text.starts_with(b"(*") {
        remark_len(text).max(1)
    } else {
        1
    }
}

/// The next name, or byte that stands by itself, and the text after it. White space, remarks, strings and digits are passed.
pub fn next_word(text: &[u8]) -> Option<(&[u8], &[u8])>
    // What is left after a word is shorter. Which word it is is tested.
    ensures { IfSome result (λ found. length found.1.now < length text.entry.now) }
{
    let mut rest = text;
    while !rest.is_empty() {
        let (front, behind) = rest.split_at(front_len(rest));
        rest = behind;
        if is_letter(front[0]) || is_symbol(front) {
            return Some((front, rest));
        }
    }
    None
}
