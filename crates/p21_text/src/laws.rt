//! Laws of the definitions: what each function ensures holds of every text. A caller calls one to learn its law.

ghost use Rattle.std.specs.Prelude.{◌≤◌, ℕ, List, length};
ghost use Rattle.p21_text.specs.Laws.{HasContent, HasOneFirst, HasOneFirstAtMost, HasOneItemListAtMost, HasOneList, HasOneListAtMost, HasOneString};

use crate::next::next_token;
use crate::token::Token;

/// From each place of a text exactly one token is the first.
pub fn one_first(text: &[u8], at: usize)
    requires { at ≤ length text.now }
    ensures { HasOneFirst text.now at }
{
    // The token that exists is the one that is found.
    let _first = next_token(text, at);
}

/// From each place of a text there is exactly one list of tokens.
pub fn one_list(text: &[u8], at: usize)
    requires { at ≤ length text.now }
    ensures { HasOneList text.now at }
{
    // The list that exists is the one that is walked through.
    let mut place = at;
    loop {
        let lexed = next_token(text, place);
        match lexed.token {
            Token::End | Token::Bad => return,
            _ => place = lexed.after,
        }
    }
}

/// A body has the items of one list at most.
pub fn items_are_unique()
    ensures { (raw : List ℕ) → HasOneItemListAtMost raw }
{}

/// From one place of a text on one token at most is the first.
pub fn first_is_unique()
    ensures { (text : List ℕ) → (at : ℕ) → HasOneFirstAtMost text at }
{}

/// The first token from a place of a text on carries a text of its kind.
#[inline]
pub fn first_has_content()
    ensures { (text : List ℕ) → (at : ℕ) → HasContent text at }
{}

/// From one place of a text on there is one list of tokens at most.
pub fn tokens_are_unique()
    ensures { (text : List ℕ) → (at : ℕ) → HasOneListAtMost text at }
{}

/// Where a text begins with a string token, it begins with no other token, and with no longer or shorter one.
pub fn one_string()
    ensures { (text : List ℕ) → HasOneString text }
{}
