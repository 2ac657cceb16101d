//! Parameters of one token.

ghost use Rattle.std.specs.Prelude.{IfSome};
ghost use Rattle.p21_text.specs.Spelling.{symbol};
ghost use Rattle.p21_check.specs.Passed.{IsLeafOf};

use p21_text::Token;
use p21_tree::Param;

/// What stands in a text from a place on, and was passed.
#[derive(Clone, Copy, Debug)]
pub(crate) struct Passed {
    /// The place behind it.
    pub(crate) after: usize,
    /// How many instance names are written in it.
    pub(crate) written: usize,
}

/// A parameter of one token.
#[derive(Debug, Drop)]
pub(crate) struct Leaf<'a> {
    pub(crate) param: Param<'a>,
    /// How many instance names are written in it: one where it is a name.
    pub(crate) written: usize,
}

/// The parameter that a token is by itself.
#[inline(always)]
pub(crate) fn leaf_of(token: Token<'_>) -> Option<Leaf<'_>>
    ensures { IfSome result (IsLeafOf (symbol token.entry)) }
{
    match token {
        Token::Int(digits) => Some(Leaf {
            param: Param::Int(digits),
            written: 0,
        }),
        Token::Real(digits) => Some(Leaf {
            param: Param::Real(digits),
            written: 0,
        }),
        Token::Str(body) => Some(Leaf {
            param: Param::Str(body),
            written: 0,
        }),
        Token::Name(name) => Some(Leaf {
            param: Param::Ref(name),
            written: 1,
        }),
        Token::Enumeration(name) => Some(Leaf {
            param: Param::Enumeration(name),
            written: 0,
        }),
        Token::Binary(digits) => Some(Leaf {
            param: Param::Binary(digits),
            written: 0,
        }),
        Token::Dollar => Some(Leaf {
            param: Param::Absent,
            written: 0,
        }),
        Token::Star => Some(Leaf {
            param: Param::Derived,
            written: 0,
        }),
        _ => None,
    }
}
