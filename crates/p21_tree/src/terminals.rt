//! The tokens that the grammar names, such as `ENDSEC` or `;`.

ghost use Rattle.std.specs.Prelude.{◌≡◌};
ghost use Rattle.p21_text.specs.Spelling.{symbol};
ghost use Rattle.p21_tree.specs.Terminals.{terminal_in, keyword_terminal_in};

use p21_text::Token;

/// A token that the grammar names.
#[derive(Clone, Copy, PartialEq, Eq)]
pub enum Terminal {
    /// `ISO-10303-21`
    Iso,
    /// `END-ISO-10303-21`
    EndIso,
    /// `HEADER`
    Header,
    /// `ENDSEC`
    EndSec,
    /// `DATA`
    Data,
    /// `(`
    Open,
    /// `=`
    Equals,
    /// `;`
    Semi,
    /// The end of the text.
    End,
}

const HEADER: &[u8] = b"HEADER";

const END_SEC: &[u8] = b"ENDSEC";

const DATA: &[u8] = b"DATA";

/// Which of these a keyword is.
fn keyword_terminal(keyword: &[u8]) -> Option<Terminal>
    ensures { result ≡ keyword_terminal_in keyword.now }
{
    if keyword == HEADER {
        return Some(Terminal::Header);
    }
    if keyword == END_SEC {
        return Some(Terminal::EndSec);
    }
    if keyword == DATA {
        return Some(Terminal::Data);
    }
    None
}

/// Which of these a token is.
#[inline(always)]
pub fn as_terminal(token: Token<'_>) -> Option<Terminal>
    ensures { result ≡ terminal_in (symbol token.entry) }
{
    match token {
        Token::Keyword(keyword) => keyword_terminal(keyword),
        Token::Iso => Some(Terminal::Iso),
        Token::EndIso => Some(Terminal::EndIso),
        Token::LParen => Some(Terminal::Open),
        Token::Equals => Some(Terminal::Equals),
        Token::Semi => Some(Terminal::Semi),
        Token::End => Some(Terminal::End),
        Token::UserKeyword(_) => None,
        Token::Int(_) => None,
        Token::Real(_) => None,
        Token::Str(_) => None,
        Token::Name(_) => None,
        Token::Enumeration(_) => None,
        Token::Binary(_) => None,
        Token::Dollar => None,
        Token::Star => None,
        Token::RParen => None,
        Token::Comma => None,
        Token::Bad => None,
    }
}
