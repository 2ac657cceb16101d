//! Tokens and where they stand, and the items of strings, by example.

use p21_text::StrItem::{Page, Scalar};
use p21_text::{
    Lexed, StrItem, Token, binary_bits, first_has_content, first_is_unique, items,
    items_are_unique, next_token, one_first, one_list, separators_len, string_items, string_len,
};
use std::alloc::{AllocError, Global};
use std::process::Abort;
use std::test::Fail;

/// A text, and the start, the end and the kind of its first token.
struct Row(&'static [u8], usize, usize, Token<'static>);

fn check(rt: &impl Abort, rows: &[Row]) {
    for Row(text, start, after, token) in rows {
        let want = Lexed {
            start: *start,
            after: *after,
            token: *token,
        };
        assert_eq!(rt; next_token(text, 0), want, "{text:?}");
        assert_eq!(rt; separators_len(text), *start, "{text:?}");
    }
}

#[test]
fn separators(rt: HostRuntime) {
    check(
        &rt,
        &[
            Row(b" /*x*/#7", 6, 8, Token::Name(7)),
            Row(b"", 0, 0, Token::End),
            Row(b"\t\n\x0b\x0c\r ", 6, 6, Token::End),
            Row(b"\x08", 0, 0, Token::Bad),
            Row(b"\x0e", 0, 0, Token::Bad),
            Row(b"/**/", 4, 4, Token::End),
            Row(b"/***/;", 5, 6, Token::Semi),
            Row(b"/*/*/;", 5, 6, Token::Semi),
            Row(b"/*/**/*/", 6, 7, Token::Star),
            Row(b"/*", 0, 0, Token::Bad),
            Row(b"/*/", 0, 0, Token::Bad),
            Row(b"/", 0, 0, Token::Bad),
            Row(b" / *", 1, 1, Token::Bad),
        ],
    );
}

#[test]
fn numbers(rt: HostRuntime) {
    check(
        &rt,
        &[
            Row(b"1.E5", 0, 4, Token::Real(b"1.E5")),
            Row(b"1.E", 0, 2, Token::Real(b"1.")),
            Row(b"1.E+", 0, 2, Token::Real(b"1.")),
            Row(b"-12.50E-03,", 0, 10, Token::Real(b"-12.50E-03")),
            Row(b"1.e5", 0, 2, Token::Real(b"1.")),
            Row(b"1..", 0, 2, Token::Real(b"1.")),
            Row(b"1E5", 0, 1, Token::Int(b"1")),
            Row(b"+007)", 0, 4, Token::Int(b"+007")),
            Row(b"1", 0, 1, Token::Int(b"1")),
            Row(b"-", 0, 0, Token::Bad),
            Row(b"+.5", 0, 0, Token::Bad),
            Row(b"+-1", 0, 0, Token::Bad),
        ],
    );
}

#[test]
fn names(rt: HostRuntime) {
    check(
        &rt,
        &[
            Row(b"#0", 0, 2, Token::Name(0)),
            Row(b"#1A", 0, 2, Token::Name(1)),
            Row(
                b"#18446744073709551615=",
                0,
                21,
                Token::Name(18446744073709551615),
            ),
            Row(b"#18446744073709551616", 0, 0, Token::Bad),
            Row(b"#184467440737095516150", 0, 0, Token::Bad),
            Row(
                b"#00000000000000000000018446744073709551615",
                0,
                42,
                Token::Name(18446744073709551615),
            ),
            Row(b"#", 0, 0, Token::Bad),
            Row(b"# 1", 0, 0, Token::Bad),
            Row(b"#-1", 0, 0, Token::Bad),
        ],
    );
}

#[test]
fn words(rt: HostRuntime) {
    check(
        &rt,
        &[
            Row(b"ISO-10303-21 ;", 0, 12, Token::Iso),
            Row(b"ISO-10303-211", 0, 12, Token::Iso),
            Row(b"ISO-10303-2", 0, 3, Token::Keyword(b"ISO")),
            Row(b"ISO_10303-21", 0, 9, Token::Keyword(b"ISO_10303")),
            Row(b"END-ISO-10303-21;", 0, 16, Token::EndIso),
            Row(b"END-ISO-10303-20;", 0, 3, Token::Keyword(b"END")),
            Row(b"A1_B2(", 0, 5, Token::Keyword(b"A1_B2")),
            Row(b"_", 0, 1, Token::Keyword(b"_")),
            Row(b"Ab", 0, 1, Token::Keyword(b"A")),
            Row(b"a", 0, 0, Token::Bad),
            Row(b"!A1;", 0, 3, Token::UserKeyword(b"!A1")),
            Row(b"!", 0, 0, Token::Bad),
            Row(b"!1", 0, 0, Token::Bad),
        ],
    );
}

#[test]
fn between_marks(rt: HostRuntime) {
    check(
        &rt,
        &[
            Row(b".T.", 0, 3, Token::Enumeration(b"T")),
            Row(b".T_1..", 0, 5, Token::Enumeration(b"T_1")),
            Row(b".T", 0, 0, Token::Bad),
            Row(b".T1,", 0, 0, Token::Bad),
            Row(b".1.", 0, 0, Token::Bad),
            Row(b"..", 0, 0, Token::Bad),
            Row(b"\"23B\"", 0, 5, Token::Binary(b"23B")),
            Row(b"\"0\"", 0, 3, Token::Binary(b"0")),
            Row(b"\"3fF\"", 0, 5, Token::Binary(b"3fF")),
            Row(b"\"1\"", 0, 0, Token::Bad),
            Row(b"\"4F\"", 0, 0, Token::Bad),
            Row(b"\"\"", 0, 0, Token::Bad),
            Row(b"\"0G\"", 0, 0, Token::Bad),
            Row(b"\"0", 0, 0, Token::Bad),
            Row(b"'it''s'", 0, 7, Token::Str(b"it''s")),
            Row(b"'\\S\\''", 0, 6, Token::Str(b"\\S\\'")),
            Row(b"''", 0, 2, Token::Str(b"")),
            Row(b"'''", 0, 0, Token::Bad),
            Row(b"'", 0, 0, Token::Bad),
        ],
    );
}

#[test]
fn single_bytes(rt: HostRuntime) {
    check(
        &rt,
        &[
            Row(b"$$", 0, 1, Token::Dollar),
            Row(b"*", 0, 1, Token::Star),
            Row(b"(", 0, 1, Token::LParen),
            Row(b")", 0, 1, Token::RParen),
            Row(b",", 0, 1, Token::Comma),
            Row(b"=", 0, 1, Token::Equals),
            Row(b";", 0, 1, Token::Semi),
            Row(b"%", 0, 0, Token::Bad),
            Row(b"\x00", 0, 0, Token::Bad),
            Row(b"\x7f", 0, 0, Token::Bad),
            Row(b"\xff", 0, 0, Token::Bad),
        ],
    );
}

#[test]
fn from_a_place(rt: HostRuntime) {
    let text = b"#1= A;";
    assert_eq!(rt;
        next_token(text, 2),
        Lexed {
            start: 2,
            after: 3,
            token: Token::Equals
        }
    );
    assert_eq!(rt;
        next_token(text, 3),
        Lexed {
            start: 4,
            after: 5,
            token: Token::Keyword(b"A")
        }
    );
    assert_eq!(rt;
        next_token(text, 6),
        Lexed {
            start: 6,
            after: 6,
            token: Token::End
        }
    );
    one_first(text, 3);
    one_list(text, 0);
    items_are_unique();
    first_is_unique();
    first_has_content();
}

/// How many bits the binary has that a text begins with.
fn bits(text: &[u8]) -> Option<u128> {
    match next_token(text, 0).token {
        Token::Binary(raw) => Some(binary_bits(raw)),
        _ => None,
    }
}

#[test]
fn bits_of_binaries(rt: HostRuntime) {
    assert_eq!(rt; bits(b"\"23B\""), Some(6));
    assert_eq!(rt; bits(b"\"0\""), Some(0));
    assert_eq!(rt; bits(b"\"0A\""), Some(4));
    assert_eq!(rt; bits(b"\"30\""), Some(1));
    assert_eq!(rt; bits(b"\"1\""), None);
}

/// A text, and the items of the string that it begins with.
struct ItemRow(&'static [u8], &'static [StrItem]);

fn items_of(alloc: Global, text: &[u8]) -> Result<Option<Vec<StrItem>>, AllocError> {
    match next_token(text, 0).token {
        Token::Str(raw) => Ok(Some(string_items(alloc, raw)?)),
        _ => Ok(None),
    }
}

/// How many items the string has that a text begins with, and the first.
fn len_and_first(text: &[u8]) -> Option<(u64, Option<StrItem>)> {
    match next_token(text, 0).token {
        Token::Str(raw) => Some((string_len(raw), items(raw).next())),
        _ => None,
    }
}

fn check_items(rt: &impl Abort, alloc: Global, rows: &[ItemRow]) -> Result<(), AllocError> {
    for ItemRow(text, want) in rows {
        let found = items_of(alloc, text)?.expect(rt, "a string");
        assert_eq!(rt; found.as_slice(), *want, "{text:?}");
        let (len, first) = len_and_first(text).expect(rt, "a string");
        assert_eq!(rt; len, want.len() as u64);
        assert_eq!(rt; first, want.first().copied());
    }
    Ok(())
}

#[test]
fn items_of_the_table(rt: HostRuntime) -> Result<(), Fail> {
    check_items(
        &rt,
        rt.alloc(),
        &[
            ItemRow(
                b"'it''s'",
                &[Scalar('i'), Scalar('t'), Scalar('\''), Scalar('s')],
            ),
            ItemRow(b"'\\X\\E9'", &[Scalar('\u{e9}')]),
            ItemRow(b"'\\X\\e9'", &[Scalar('\u{e9}')]),
            ItemRow(b"'\\\\'", &[Scalar('\\')]),
            ItemRow(b"'\\S\\''", &[Scalar('\u{a7}')]),
            ItemRow(b"'\\S\\\\'", &[Scalar('\u{dc}')]),
            ItemRow(b"'\\S\\~'", &[Scalar('\u{fe}')]),
            ItemRow(b"'\\PB\\\\S\\a'", &[Page(66, 225)]),
            ItemRow(b"'\\PI\\\\S\\ '", &[Page(73, 160)]),
            ItemRow(b"'\\PB\\\\PA\\\\S\\a'", &[Scalar('\u{e1}')]),
            ItemRow(b"'a\nb'", &[Scalar('a'), Scalar('b')]),
            ItemRow(b"'\t\r'", &[]),
            ItemRow(b"''", &[]),
            ItemRow(b"''''", &[Scalar('\'')]),
            ItemRow(b"' ~'", &[Scalar(' '), Scalar('~')]),
        ],
    )?;
    Ok(())
}

#[test]
fn items_of_groups(rt: HostRuntime) -> Result<(), Fail> {
    check_items(
        &rt,
        rt.alloc(),
        &[
            ItemRow(
                b"'\\X2\\00e900C9\\X0\\'",
                &[Scalar('\u{e9}'), Scalar('\u{c9}')],
            ),
            ItemRow(b"'\\X2\\D83DDE00\\X0\\'", &[Scalar('\u{1f600}')]),
            ItemRow(
                b"'\\X2\\D83D\\X0\\\\X2\\DE00\\X0\\'",
                &[Scalar('\u{fffd}'), Scalar('\u{fffd}')],
            ),
            ItemRow(
                b"'\\X2\\D83D0041\\X0\\'",
                &[Scalar('\u{fffd}'), Scalar('A')],
            ),
            ItemRow(
                b"'\\X2\\DE00D83D\\X0\\'",
                &[Scalar('\u{fffd}'), Scalar('\u{fffd}')],
            ),
            ItemRow(
                b"'\\X2\\D83DD83DDE00\\X0\\'",
                &[Scalar('\u{fffd}'), Scalar('\u{1f600}')],
            ),
            ItemRow(b"'\\X4\\0001F600\\X0\\'", &[Scalar('\u{1f600}')]),
            ItemRow(
                b"'\\X4\\0010FFFF00110000\\X0\\x'",
                &[Scalar('\u{10ffff}'), Scalar('\u{fffd}'), Scalar('x')],
            ),
            ItemRow(b"'\\X4\\0000D800\\X0\\'", &[Scalar('\u{fffd}')]),
        ],
    )?;
    Ok(())
}

#[test]
fn items_of_bytes_above_ascii(rt: HostRuntime) -> Result<(), Fail> {
    check_items(
        &rt,
        rt.alloc(),
        &[
            ItemRow(b"'\xc3\xa9'", &[Scalar('\u{e9}')]),
            ItemRow(b"'\xe9x'", &[Scalar('\u{e9}'), Scalar('x')]),
            ItemRow(b"'\x80\xff'", &[Scalar('\u{80}'), Scalar('\u{ff}')]),
            ItemRow(b"'\xc2\x80'", &[Scalar('\u{80}')]),
            ItemRow(b"'\xc0\xaf'", &[Scalar('\u{c0}'), Scalar('\u{af}')]),
            ItemRow(b"'\xe2\x82\xac'", &[Scalar('\u{20ac}')]),
            ItemRow(b"'\xe2\x82'", &[Scalar('\u{e2}'), Scalar('\u{82}')]),
            ItemRow(b"'\xf0\x9f\x98\x80'", &[Scalar('\u{1f600}')]),
            ItemRow(
                b"'\xed\xa0\x80'",
                &[Scalar('\u{ed}'), Scalar('\u{a0}'), Scalar('\u{80}')],
            ),
            ItemRow(
                b"'\xf4\x90\x80\x80'",
                &[
                    Scalar('\u{f4}'),
                    Scalar('\u{90}'),
                    Scalar('\u{80}'),
                    Scalar('\u{80}'),
                ],
            ),
        ],
    )?;
    Ok(())
}

#[test]
fn memory_or_the_answer(rt: HostRuntime) {
    let Ok(found) = items_of(rt.alloc(), b"'a''\\X2\\00FC0416\\X0\\b'") else {
        return;
    };
    let found = found.expect(&rt, "a string");
    let want = [
        Scalar('a'),
        Scalar('\''),
        Scalar('\u{fc}'),
        Scalar('\u{416}'),
        Scalar('b'),
    ];
    assert_eq!(rt; found.as_slice(), want.as_slice());
}

#[test]
fn strings_that_are_none(rt: HostRuntime) {
    check(
        &rt,
        &[
            Row(b"'a", 0, 0, Token::Bad),
            Row(b"'a\x1f'", 0, 0, Token::Bad),
            Row(b"'a\x7f'", 0, 0, Token::Bad),
            Row(b"'\x0b'", 0, 0, Token::Bad),
            Row(b"'\\'", 0, 0, Token::Bad),
            Row(b"'\\Q'", 0, 0, Token::Bad),
            Row(b"'\\PJ\\'", 0, 0, Token::Bad),
            Row(b"'\\S\\\x7f'", 0, 0, Token::Bad),
            Row(b"'\\X\\E'", 0, 0, Token::Bad),
            Row(b"'\\x\\41'", 0, 0, Token::Bad),
            Row(b"'\\X2\\\\X0\\'", 0, 0, Token::Bad),
            Row(b"'\\X2\\D83\\X0\\'", 0, 0, Token::Bad),
            Row(b"'\\X2\\0041'", 0, 0, Token::Bad),
            Row(b"'\\X4\\00000041\\X0'", 0, 0, Token::Bad),
        ],
    );
}
