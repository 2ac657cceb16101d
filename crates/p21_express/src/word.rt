//! A word of a schema's text.

ghost use Rattle.std.specs.Prelude.{◌≡◌, ◌<◌, ◌^◌, IfSome};
ghost use Rattle.p21_express.specs.Word.{is_name, is_symbol, is_opening, is_closing};
ghost use Rattle.p21_express.specs.Grammar.{value_of};
ghost use Rattle.p21_express.specs.Reader.{word_of};

use crate::whole::Whole;

/// A word of a schema's text, in upper case.
#[derive(Clone, Copy)]
pub enum Word<'a> {
    /// A name, or a word of the grammar.
    Name(&'a [u8]),
    /// A whole number, with its value where it has at most 18 digits.
    Integer(Option<Whole>),
    /// A string, of which nothing is kept.
    Text,
    /// A byte that stands by itself.
    Symbol(u8),
}

impl Word<'_> {
    /// Whether this is this name or word of the grammar.
    pub fn is_name(self, name: &[u8]) -> bool
        ensures { result ≡ is_name name.now (word_of self.entry) }
    {
        match self {
            Word::Name(text) => text == name,
            _ => false,
        }
    }

    /// Whether this is this byte, standing by itself.
    pub fn is_symbol(self, symbol: u8) -> bool
        ensures { result ≡ is_symbol symbol (word_of self.entry) }
    {
        match self {
            Word::Symbol(byte) => byte == symbol,
            _ => false,
        }
    }

    /// The value of a whole number of at most 18 digits.
    pub fn value(self) -> Option<u64>
        // The value of a whole number of at most 18 digits.
        ensures value { result ≡ value_of (word_of self.entry) }
        // It is below 10^18.
        ensures small { IfSome result (λ v. v < 10 ^ 18) }
    {
        match self {
            Word::Integer(Some(whole)) => Some(whole.value),
            _ => None,
        }
    }

    /// Whether this is `(` or `[`.
    pub(crate) fn is_opening(self) -> bool
        ensures { result ≡ is_opening (word_of self.entry) }
    {
        self.is_symbol(b'(') || self.is_symbol(b'[')
    }

    /// Whether this is `)` or `]`.
    pub(crate) fn is_closing(self) -> bool
        ensures { result ≡ is_closing (word_of self.entry) }
    {
        self.is_symbol(b')') || self.is_symbol(b']')
    }
}
