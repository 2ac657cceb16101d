//! Which words are expressions, by example.

use crate::reader::expression;
use p21_express::{Refusal, scan, upper_case};
use std::alloc::{AllocError, Global};
use std::test::Fail;

/// What reading an expression from a text gives.
#[derive(Clone, Copy, Debug, PartialEq, Eq)]
enum Reading {
    /// An expression, and how many words stand after it.
    Read(usize),
    Refused,
}

fn answer(alloc: Global, text: &[u8]) -> Result<Reading, AllocError> {
    let upper = upper_case(alloc, text)?;
    let scanned = scan(alloc, &upper)?;
    match expression(alloc, &scanned.words) {
        Ok((_tree, rest)) => Ok(Reading::Read(rest.len())),
        Err(Refusal::Memory) => Err(AllocError),
        Err(_) => Ok(Reading::Refused),
    }
}

/// So many parentheses around a name.
fn nested(alloc: Global, count: usize) -> Result<Vec<u8>, AllocError> {
    let mut text = Vec::new(alloc);
    for _i in 0..count {
        text.push(b'(')?;
    }
    text.push(b'a')?;
    for _i in 0..count {
        text.push(b')')?;
    }
    Ok(text)
}

#[test]
fn whole_texts(rt: HostRuntime) -> Result<(), Fail> {
    let texts: [&[u8]; 30] = [
        b"a",
        b"1",
        b"123456789012345678901234567890",
        b"1.",
        b"1.5e-3 + 1.E5 - 2.0E+5",
        b"'it''s' + \"00000041\"",
        b"%0101",
        b"TRUE OR FALSE XOR UNKNOWN",
        b"? = PI * CONST_E",
        b"SELF\\e.a.b[1]",
        b"s[1:2]",
        b"f()",
        b"f(a, b + c, [d])",
        b"f(a).b",
        b"[]",
        b"[a, b : 3, c]",
        b"{1 < a + 1 <= 3}",
        b"QUERY(x <* a || b | x > 3)",
        b"NOT a AND (b OR NOT (c))",
        b"-a ** -b * c / d DIV e MOD g",
        b"a :=: b",
        b"a :<>: b",
        b"a <> b",
        b"a >= b",
        b"'X.Y' IN TYPEOF(a)",
        b"a LIKE 'b'",
        b"e.item",
        b"((a))",
        b"a - b - c",
        b"a -- remark\n + (* remark (* inner *) *) b",
    ];
    for text in texts.iter() {
        assert_eq!(rt; answer(rt.alloc(), text)?, Reading::Read(0), "{text:?}");
    }
    Ok(())
}

#[test]
fn words_after(rt: HostRuntime) -> Result<(), Fail> {
    assert_eq!(rt; answer(rt.alloc(), b"a ; b")?, Reading::Read(2));
    assert_eq!(rt; answer(rt.alloc(), b"a THEN")?, Reading::Read(1));
    assert_eq!(rt; answer(rt.alloc(), b"TRUE.a")?, Reading::Read(2));
    assert_eq!(rt; answer(rt.alloc(), b"(a).b")?, Reading::Read(2));
    assert_eq!(rt; answer(rt.alloc(), b"a | b")?, Reading::Read(2));
    Ok(())
}

#[test]
fn refused_texts(rt: HostRuntime) -> Result<(), Fail> {
    let texts: [&[u8]; 22] = [
        b"",
        b")",
        b"a +",
        b"a + AND",
        b"a < b < c",
        b"a ** b ** c",
        b"NOT NOT a",
        b"- -a",
        b"NOT [a]",
        b"(a",
        b"f(a,)",
        b"f(a b)",
        b"[a, ]",
        b"[a : ]",
        b"{1 < a}",
        b"{1 < a > 3}",
        b"QUERY(x <* a)",
        b"QUERY(1 <* a | b)",
        b"1.0E-",
        b"%",
        b"a.1",
        b"IN",
    ];
    for text in texts.iter() {
        assert_eq!(rt; answer(rt.alloc(), text)?, Reading::Refused, "{text:?}");
    }
    Ok(())
}

#[test]
fn nesting(rt: HostRuntime) -> Result<(), Fail> {
    let text = nested(rt.alloc(), 255)?;
    assert_eq!(rt; answer(rt.alloc(), &text)?, Reading::Read(0));
    let text = nested(rt.alloc(), 256)?;
    assert_eq!(rt; answer(rt.alloc(), &text)?, Reading::Refused);
    Ok(())
}
