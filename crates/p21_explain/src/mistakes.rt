//! Common mistakes of files and schemas, and what to do about them.

use p21_spelling::next_word;
use p21_text::{Token, next_token};

/// What a file is that does not begin as an exchange structure, by its text from the first token on, and what to do about it.
pub(crate) fn instead_of_file(front: &[u8]) -> Option<&'static str> {
    other_format(front).or(match front {
        [b'{' | b'[', ..] => {
            Some(" This looks like JSON: export the model as a STEP file (ISO 10303-21).")
        }
        [b'<', ..] => Some(" This looks like XML: export the model as a STEP file (ISO 10303-21)."),
        _ if begins(front, b"ISO-10303-21") => Some(" Keywords are in upper case."),
        _ if begins_as_schema(front) => Some(
            " This is an EXPRESS schema, not an exchange structure (a STEP file). The arguments are SCHEMA FILE: the schema comes first.",
        ),
        _ => None,
    })
}

/// What a schema is that does not begin as one, and what to do about it.
pub(crate) fn instead_of_schema(text: &[u8]) -> Option<&'static str> {
    let front = &text[next_token(text, 0).start..];
    other_format(front).or(match front {
        [b'{' | b'[' | b'<', ..] => {
            Some(" This looks like JSON or XML: use the schema in EXPRESS (ISO 10303-11).")
        }
        _ if begins(front, b"ISO-10303-21") => Some(
            " This is an exchange structure (a STEP file), not an EXPRESS schema. The arguments are SCHEMA FILE: the schema comes first.",
        ),
        _ => None,
    })
}

/// What a text is that begins as one of another format, and what to do about it.
fn other_format(front: &[u8]) -> Option<&'static str> {
    Some(match front {
        [0xEF, 0xBB, 0xBF, ..] =>
            " A byte order mark is not allowed: remove the first three bytes.",
        [0xFF, 0xFE, ..] | [0xFE, 0xFF, ..] | [0, b'I' | b'S', ..] | [b'I' | b'S', 0, ..] => {
            " This is text in UTF-16: convert it to UTF-8, without a byte order mark."
        }
        [0x1F, 0x8B, ..] => " This is a gzip file: decompress it first.",
        [b'P', b'K', 3, 4, ..] => " This is a ZIP archive: extract the file first.",
        _ if begins(front, b"<html") || begins(front, b"<!doctype html") =>
            " This is an HTML page, perhaps of a download that failed.",
        _ => return None,
    })
}

/// Whether the first word of a text is SCHEMA, in either case.
fn begins_as_schema(text: &[u8]) -> bool {
    next_word(text).is_some_and(|(word, _)| word.eq_ignore_ascii_case(b"SCHEMA"))
}

/// Whether a text begins with these letters, in either case.
fn begins(text: &[u8], letters: &[u8]) -> bool {
    text.get(..letters.len())
        .is_some_and(|front| front.eq_ignore_ascii_case(letters))
}

/// What was perhaps meant by bytes with which no token begins, after a token.
pub(crate) fn meant_by_bytes(bytes: &[u8], behind: Token<'_>) -> &'static str {
    match (bytes, behind) {
        ([b'a'..=b'z', ..], Token::Str(_)) => {
            " An apostrophe in a string is written twice, as in 'it''s'."
        }
        ([b'e', ..], Token::Int(_) | Token::Real(_)) => {
            " An exponent is an upper-case `E` after a point, as in `1.E5`."
        }
        ([b'a'..=b'z', ..], _) => " Keywords are in upper case, and strings in apostrophes.",
        ([b'.', b'0'..=b'9', ..], _) => " A REAL has a digit before its point, as in `0.5`.",
        ([b'.', b'a'..=b'z', ..], _) => " An enumeration value is in upper case, as in `.METRE.`.",
        ([b'.', ..], _) => " An enumeration value ends with a point, as in `.METRE.`.",
        ([b'"', ..], _) => {
            " A string is in apostrophes, as in 'x'; a quotation mark begins a binary, as in \"0F\"."
        }
        ([b'\'', ..], _) => {
            " The string is not closed, or has a byte or a `\\` that is not allowed; a `\\` is written `\\\\`."
        }
        ([b'/', b'*', ..], _) => " The comment is not closed.",
        ([b'/' | b'-', ..], _) => " A comment is between `/*` and `*/`.",
        ([b'#', ..], _) => " An instance name is `#` and a number up to 18446744073709551615.",
        ([b'&', b'S', ..], _) => " SCOPE and EXPORT are not supported.",
        _ => "",
    }
}

/// How a value is written that is not given.
const NOT_GIVEN: &str = " A value that is not given is written `$`.";

/// What was perhaps meant by a token that does not fit after another.
pub(crate) fn meant_by_token(token: Token<'_>, behind: Token<'_>) -> &'static str {
    let word = match token {
        Token::Keyword(word) => word,
        _ => b"".as_slice(),
    };
    match behind {
        Token::Keyword(before) => meant_behind_word(token, before),
        Token::Semi if is_one_of(word, &["ANCHOR", "REFERENCE", "SIGNATURE"]) => {
            " The sections of edition 3 are not supported: remove this one, up to its `ENDSEC;`."
        }
        Token::Int(_) if matches!(word, [b'E'] | [b'E', b'0'..=b'9', ..]) => {
            " A REAL has a point before its exponent, as in `5.E3`."
        }
        Token::Comma if matches!(token, Token::Comma | Token::RParen) => NOT_GIVEN,
        Token::LParen if matches!(token, Token::Comma) => NOT_GIVEN,
        _ => "",
    }
}

/// The same after a keyword.
fn meant_behind_word(token: Token<'_>, word: &[u8]) -> &'static str {
    if is_one_of(word, &["TRUE", "FALSE"]) {
        return " A BOOLEAN is written `.T.` or `.F.`.";
    }
    if is_one_of(word, &["NULL", "NIL", "NONE"]) {
        return NOT_GIVEN;
    }
    match token {
        Token::LParen if is_one_of(word, &["DATA"]) => {
            " Only one data section is supported, which begins with `DATA;`."
        }
        Token::Comma | Token::RParen => {
            " An enumeration value is between points, as in `.METRE.`, and a string in apostrophes."
        }
        _ => "",
    }
}

/// Whether a word is one of some.
fn is_one_of(word: &[u8], words: &[&str]) -> bool {
    words.iter().any(|it| word == it.as_bytes())
}
