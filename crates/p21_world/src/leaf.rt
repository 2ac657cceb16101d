//! Numbers, strings, binaries and truths of a file as values.

ghost use Rattle.p21_text.specs.Items.{IsBody};

use p21_text::{StrItem, items};
use p21_values::{Budget, Characters, Stop, Truth, Value};
use std::alloc::{AllocError, Global};
use std::rc::Rc;

/// How many characters are read in one step.
const CHARACTERS_A_STEP: usize = 64;

/// Behind the codes of all characters, those of the parts of ISO 8859 whose letters choose them.
const PAGES: u32 = 0x200000;

/// An integer. NotComputed says that it is out of the range of 64 bits.
pub(crate) fn integer<'w>(spelled: &[u8]) -> Result<Value<'w>, Stop> {
    match fast_float::parse_i64(spelled) {
        Ok(number) => Ok(Value::Integer(number)),
        Err(_) => Err(Stop::NotComputed),
    }
}

/// The nearest real number; `?` where it is too great.
pub(crate) fn real<'w>(spelled: &[u8]) -> Value<'w> {
    let number: f64 = match fast_float::parse(spelled) {
        Ok(number) => number,
        Err(_) => return Value::Indeterminate,
    };
    finite(number)
}

/// A real number; `?` where it is none.
pub(crate) fn finite<'w>(number: f64) -> Value<'w> {
    if number.is_finite() {
        Value::Real(number)
    } else {
        Value::Indeterminate
    }
}

/// The truth that an item names.
pub(crate) fn truth<'w>(name: &[u8]) -> Value<'w> {
    if name == b"T".as_slice() {
        Value::Logical(Truth::True)
    } else if name == b"F".as_slice() {
        Value::Logical(Truth::False)
    } else if name == b"U".as_slice() {
        Value::Logical(Truth::Unknown)
    } else {
        Value::Indeterminate
    }
}

/// Takes a step for each so many characters.
fn take_for(budget: &mut Budget, count: usize) -> Result<(), Stop> {
    for _step in 0..count / CHARACTERS_A_STEP {
        budget.take()?;
    }
    Ok(())
}

/// A string by its body, borrowed where each byte stands for itself.
pub(crate) fn text<'w>(budget: &mut Budget, body: &'w [u8]) -> Result<Value<'w>, Stop>
    requires { IsBody body.now }
{
    take_for(budget, body.len())?;
    if body.iter().all(|byte| is_itself(*byte)) {
        return Ok(Value::Text(Characters::Bytes(body)));
    }
    Ok(Value::Text(decoded(budget.alloc(), body)?))
}

/// Whether a byte of a string stands for itself.
fn is_itself(byte: u8) -> bool {
    b' ' <= byte && byte < 127 && byte != b'\'' && byte != b'\\'
}

/// The characters of a string by its body.
fn decoded<'w>(alloc: Global, body: &[u8]) -> Result<Characters<'w>, AllocError>
    requires { IsBody body.now }
{
    let mut codes = Vec::new(alloc);
    for item in items(body) {
        codes.push(code(item))?;
    }
    Ok(Characters::Codes(Rc::new(alloc, codes)?))
}

/// The code of an item of a string.
fn code(item: StrItem) -> u32 {
    match item {
        StrItem::Scalar(character) => u32::from(character),
        StrItem::Page(letter, number) => PAGES + u32::from(letter) * 256 + u32::from(number),
    }
}

/// A binary by its body: the first digit says how many bits of the second do not count.
pub(crate) fn binary<'w>(budget: &mut Budget, body: &[u8]) -> Result<Value<'w>, Stop> {
    take_for(budget, body.len())?;
    let codes = bits(budget.alloc(), body)?;
    let shared = share(budget.alloc(), codes)?;
    Ok(Value::Binary(Characters::Codes(shared)))
}

fn share(alloc: Global, codes: Vec<u32>) -> Result<Rc<Vec<u32>>, AllocError> {
    Ok(Rc::new(alloc, codes)?)
}

/// The bits of a binary, each as the code of `0` or `1`.
fn bits(alloc: Global, body: &[u8]) -> Result<Vec<u32>, AllocError> {
    let mut codes = Vec::new(alloc);
    let Some((unused, digits)) = body.split_first() else {
        return Ok(codes);
    };
    let mut from = usize::from(hex(*unused)).min(4);
    for digit in digits {
        push_bits(&mut codes, hex(*digit), from)?;
        from = 0;
    }
    Ok(codes)
}

/// Adds those of the four bits of a digit that stand from a place on.
fn push_bits(codes: &mut Vec<u32>, digit: u8, from: usize) -> Result<(), AllocError> {
    for place in from..4 {
        codes.push(48 + u32::from(bit(digit, place)))?;
    }
    Ok(())
}

/// The bit at a place of four.
fn bit(digit: u8, place: usize) -> u8 {
    match place {
        0 => digit / 8 % 2,
        1 => digit / 4 % 2,
        2 => digit / 2 % 2,
        _ => digit % 2,
    }
}

/// The value of a digit of base 16.
fn hex(digit: u8) -> u8 {
    match digit {
        b'0'..=b'9' => digit - b'0',
        b'A'..=b'F' => digit - b'A' + 10,
        b'a'..=b'f' => digit - b'a' + 10,
        _ => 0,
    }
}
