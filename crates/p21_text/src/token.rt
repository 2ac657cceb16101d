//! What a token is, and where one stands.

/// A token of the clear text, which borrows its text from the source.
#[derive(Clone, Copy, Debug, PartialEq, Eq)]
pub enum Token<'a> {
    /// `ISO-10303-21`
    Iso,
    /// `END-ISO-10303-21`
    EndIso,
    /// A standard keyword, as spelled.
    Keyword(&'a [u8]),
    /// A user-defined keyword, with its `!`.
    UserKeyword(&'a [u8]),
    /// An integer, as spelled.
    Int(&'a [u8]),
    /// A real, as spelled.
    Real(&'a [u8]),
    /// A string: its body, between the apostrophes.
    Str(&'a [u8]),
    /// An instance name: its number.
    Name(u64),
    /// An enumeration: its name, between the points.
    Enumeration(&'a [u8]),
    /// A binary: its digits, between the quotes.
    Binary(&'a [u8]),
    /// `$`
    Dollar,
    /// `*`
    Star,
    /// `(`
    LParen,
    /// `)`
    RParen,
    /// `,`
    Comma,
    /// `=`
    Equals,
    /// `;`
    Semi,
    /// The end of the text.
    End,
    /// No token begins here.
    Bad,
}

/// A token and where it stands.
#[derive(Clone, Copy, Debug, PartialEq, Eq)]
pub struct Lexed<'a> {
    /// The place of the token's first byte, in bytes from the text's first byte.
    pub start: usize,
    /// The place after the token's last byte; `start` where the token is `End` or `Bad`.
    pub after: usize,
    /// The token.
    pub token: Token<'a>,
}
