//! Tokens one after the other, with how many parentheses are open.

ghost use Rattle.std.specs.Prelude.{◌≤◌, length};

use p21_text::{Lexed, Token, next_token};

/// A walk over the tokens of a text.
#[derive(Clone, Copy)]
pub(crate) struct Walk<'a> {
    text: &'a [u8],
    /// Where it goes on.
    at: usize,
    /// How many parentheses are open.
    open: usize,
    /// The last token that was passed; `End` where there is none.
    last: Token<'a>,
    ghost within: { at ≤ length text.now },
}

impl<'a> Walk<'a> {
    /// A walk from a place on, which is at most the text's length.
    pub(crate) fn new(text: &'a [u8], at: usize) -> Walk<'a>
        requires { at ≤ length text.now }
    {
        Walk {
            text,
            at,
            open: 0,
            last: Token::End,
        }
    }

    /// The next token; it is passed.
    pub(crate) fn next(&mut self) -> Lexed<'a> {
        let lexed = next_token(self.text, self.at);
        match lexed.token {
            Token::LParen => self.open = self.open.saturating_add(1),
            Token::RParen => self.open = self.open.saturating_sub(1),
            _ => {}
        }
        self.at = lexed.after;
        self.last = lexed.token;
        lexed
    }

    /// How many parentheses are open.
    pub(crate) fn open(&self) -> usize {
        self.open
    }

    /// The last token that was passed; `End` before the first.
    pub(crate) fn last(&self) -> Token<'a> {
        self.last
    }
}
