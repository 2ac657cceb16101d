//! The keywords that begin a record.

ghost use Rattle.std.specs.Prelude.{◌≡◌};
ghost use Rattle.p21_text.specs.Spelling.{symbol};
ghost use Rattle.p21_tree.specs.Keywords.{keyword_in, keyword_view};

use p21_text::Token;

/// The keyword that a token is, standard or user-defined.
pub fn keyword(token: Token<'_>) -> Option<&[u8]>
    ensures { keyword_view result ≡ keyword_in (symbol token.entry) }
{
    match token {
        Token::Keyword(keyword) => Some(keyword),
        Token::UserKeyword(keyword) => Some(keyword),
        Token::Iso => None,
        Token::EndIso => None,
        Token::LParen => None,
        Token::Equals => None,
        Token::Semi => None,
        Token::End => None,
        Token::Int(_) => None,
        Token::Real(_) => None,
        Token::Str(_) => None,
        Token::Name(_) => None,
        Token::Enumeration(_) => None,
        Token::Binary(_) => None,
        Token::Dollar => None,
        Token::Star => None,
        Token::RParen => None,
        Token::Comma => None,
        Token::Bad => None,
    }
}
