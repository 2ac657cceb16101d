//! Numbers by their decimal value as bytes.

ghost use Rattle.std.specs.Prelude.{◌≡◌, ◌+◌, ◌<◌, ◌≤◌, ◌^◌, ◌++◌, ◌==◌, [], IfOk, OnOk, MatchOption, length};
ghost use Rattle.p21_text.specs.Spelling.{decimal_from};
ghost use Rattle.p21_rules.specs.Code.{bytes_code, value_code};
ghost use Rattle.p21_rules.specs.Pushed.{IsRealPushed};
ghost use Rattle.p21_rules.specs.Number.{before_first, before_zeros, behind_first, behind_zeros, decimal, down_of, integer_of, is_negative, scaled, signed, size_of, unsigned, up_of};
ghost use Rattle.p21_rules.specs.Value.{number};

use crate::code::{push_bytes, push_front, push_number, push_scalar};
use std::alloc::AllocError;

/// No exponent of a number that is compared is as great as this.
const FAR: u64 = 100_000_000_000_000_000;

/// The digits of a number before its point and after it.
#[derive(Clone, Copy)]
struct Digits<'a> {
    whole: &'a [u8],
    fraction: &'a [u8],
}

/// A power of ten: the first number less the second.
#[derive(Clone, Copy)]
struct Power {
    up: u64,
    down: u64,
}

/// The part before the first such byte, and the part after it.
fn parted(text: &[u8], byte: u8) -> (&[u8], &[u8])
    ensures before { result.0.now ≡ before_first byte text.entry.now }
    ensures behind { result.1.now ≡ behind_first byte text.entry.now }
{
    for place in 0..text.len() {
        if text[place] == byte {
            return (&text[..place], &text[place + 1..]);
        }
    }
    (text, &text[text.len()..])
}

/// Whether `-` stands in front.
fn is_negative(text: &[u8]) -> bool
    ensures { result ≡ is_negative text.now }
{
    !text.is_empty() && text[0] == b'-'
}

/// A number without a sign in front.
fn unsigned(text: &[u8]) -> &[u8]
    ensures { result.now ≡ unsigned text.entry.now }
{
    if !text.is_empty() && (text[0] == b'+' || text[0] == b'-') {
        &text[1..]
    } else {
        text
    }
}

/// Digits from the first that is not 0 on.
fn behind_zeros(digits: &[u8]) -> &[u8]
    ensures { result.now ≡ behind_zeros digits.entry.now }
{
    let mut rest = digits;
    while !rest.is_empty() && rest[0] == b'0' {
        rest = &rest[1..];
    }
    rest
}

/// Digits up to the last that is not 0.
fn before_zeros(digits: &[u8]) -> &[u8]
    ensures { result.now ≡ before_zeros digits.entry.now }
{
    let mut rest = digits;
    while !rest.is_empty() && rest[rest.len() - 1] == b'0' {
        rest = &rest[..rest.len() - 1];
    }
    rest
}

/// The value of digits, where it is below 10^17.
fn near(digits: &[u8]) -> Option<u64>
    ensures { MatchOption result (10 ^ 17 ≤ decimal_from 0 digits.now) (λ n. (n < 10 ^ 17) × (n ≡ decimal_from 0 digits.now)) }
{
    let mut value: u64 = 0;
    for digit in digits {
        value = 10 * value + u64::from(digit.saturating_sub(b'0'));
        if value >= FAR {
            return None;
        }
    }
    Some(value)
}

impl<'a> Digits<'a> {
    /// Without the zeros in front.
    fn behind_zeros(self) -> Digits<'a>
        ensures { result.whole.now ++ result.fraction.now ≡ behind_zeros (self.entry.whole.now ++ self.entry.fraction.now) }
    {
        let whole = behind_zeros(self.whole);
        if whole.is_empty() {
            Digits {
                whole,
                fraction: behind_zeros(self.fraction),
            }
        } else {
            Digits {
                whole,
                fraction: self.fraction,
            }
        }
    }

    /// Without the zeros after it.
    fn before_zeros(self) -> Digits<'a>
        ensures { result.whole.now ++ result.fraction.now ≡ before_zeros (self.entry.whole.now ++ self.entry.fraction.now) }
    {
        let fraction = before_zeros(self.fraction);
        if fraction.is_empty() {
            Digits {
                whole: before_zeros(self.whole),
                fraction,
            }
        } else {
            Digits {
                whole: self.whole,
                fraction,
            }
        }
    }

    /// Whether there are none.
    fn is_empty(self) -> bool
        ensures { result ≡ (length (self.entry.whole.now ++ self.entry.fraction.now) == 0) }
    {
        if self.whole.is_empty() {
            self.fraction.is_empty()
        } else {
            false
        }
    }

    /// How many there are.
    fn len(self) -> usize
        requires { length self.whole.now + length self.fraction.now < 2 ^ 63 }
        ensures { result ≡ length (self.entry.whole.now ++ self.entry.fraction.now) }
    {
        self.whole.len() + self.fraction.len()
    }
}

/// Adds digits after `-` if they are negative, and their end.
fn push_signed(code: &mut Vec<u8>, minus: bool, digits: Digits<'_>) -> Result<(), AllocError>
    ensures { OnOk result (code.new.items ≡ code.old.items ++ bytes_code (signed minus (digits.entry.whole.now ++ digits.entry.fraction.now))) }
{
    if minus {
        push_scalar(code, 45)?;
    }
    push_front(code, digits.whole)?;
    push_bytes(code, digits.fraction)
}

/// Adds zero.
fn push_zero(code: &mut Vec<u8>) -> Result<(), AllocError>
    ensures { OnOk result (code.new.items ≡ code.old.items ++ value_code (number [] 0 0)) }
{
    code.push(1)?;
    code.push(0)?;
    push_number(code, 0)?;
    push_number(code, 0)
}

/// Adds a number by its digits, of which neither the first nor the last is 0, and the power of ten of the last one.
fn push_scaled(
    code: &mut Vec<u8>,
    minus: bool,
    digits: Digits<'_>,
    power: Power,
) -> Result<(), AllocError>
    ensures { OnOk result (code.new.items ≡ code.old.items ++ value_code (scaled minus (digits.entry.whole.now ++ digits.entry.fraction.now) power.up power.down)) }
{
    if digits.is_empty() {
        return push_zero(code);
    }
    code.push(1)?;
    push_signed(code, minus, digits)?;
    push_number(code, power.up.saturating_sub(power.down))?;
    push_number(code, power.down.saturating_sub(power.up))
}

/// Adds the number of these digits, times a power of ten.
fn push_decimal(
    code: &mut Vec<u8>,
    minus: bool,
    digits: Digits<'_>,
    power: Power,
) -> Result<(), AllocError>
    requires digits { length digits.whole.now + length digits.fraction.now < 2 ^ 63 }
    requires up { power.up < 10 ^ 17 }
    requires down { power.down < 10 ^ 17 }
    ensures { OnOk result (code.new.items ≡ code.old.items ++ value_code (decimal minus digits.entry.whole.now digits.entry.fraction.now power.up power.down)) }
{
    let front = digits.before_zeros();
    let up = power.up + (digits.len() - front.len()) as u64;
    let down = power.down + digits.fraction.len() as u64;
    push_scaled(code, minus, front.behind_zeros(), Power { up, down })
}

/// Adds the value of an integer.
pub(crate) fn push_integer(code: &mut Vec<u8>, text: &[u8]) -> Result<(), AllocError>
    ensures { OnOk result (code.new.items ≡ code.old.items ++ value_code (integer_of text.now)) }
{
    let digits = Digits {
        whole: unsigned(text),
        fraction: &text[text.len()..],
    };
    push_decimal(code, is_negative(text), digits, Power { up: 0, down: 0 })
}

/// The power of ten that an exponent is, where it is near.
fn power_of(exponent: &[u8]) -> Option<Power>
    ensures { MatchOption result (10 ^ 17 ≤ size_of exponent.now) (λ p. (p.up ≡ up_of exponent.now) × (p.down ≡ down_of exponent.now) × (size_of exponent.now < 10 ^ 17)) }
{
    let value = near(unsigned(exponent))?;
    if is_negative(exponent) {
        Some(Power { up: 0, down: value })
    } else {
        Some(Power { up: value, down: 0 })
    }
}

/// Adds the value of a real, and answers whether it is near. If not, nothing was added.
pub(crate) fn push_real(code: &mut Vec<u8>, text: &[u8]) -> Result<bool, AllocError>
    ensures { IfOk result (IsRealPushed text.now code.old.items code.new.items) }
{
    let (mantissa, exponent) = parted(text, b'E');
    let (whole, fraction) = parted(mantissa, b'.');
    let Some(power) = power_of(exponent) else {
        return Ok(false);
    };
    let digits = Digits {
        whole: unsigned(whole),
        fraction,
    };
    push_decimal(code, is_negative(whole), digits, power)?;
    Ok(true)
}
