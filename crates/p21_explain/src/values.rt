//! What stands in an attribute's place.

ghost use Rattle.std.specs.Prelude.{◌≤◌, length};

use crate::walk::Walk;
use p21_printed::{Front, Said};
use p21_text::{Lexed, Token, binary_bits, next_token, string_len};
use std::alloc::AllocError;

/// Adds what the parameter that begins at a place is: `the integer 7`.
pub(crate) fn say_value(said: &mut Said, text: &[u8], at: usize) -> Result<(), AllocError>
    requires { at ≤ length text.now }
{
    let Lexed { start, token, .. } = next_token(text, at);
    match token {
        Token::Int(digits) => said.say(("the integer ", Front(digits))),
        Token::Real(digits) => said.say(("the real `", Front(digits), "`")),
        Token::Enumeration(name) => said.say(("the enumeration value `.", Front(name), ".`")),
        Token::Name(name) => said.say(("the instance name #", name)),
        Token::Dollar => said.say("`$` (no value)"),
        Token::Star => said.say("`*`"),
        Token::Str(body) => {
            let characters = string_len(body);
            said.say(("the string '", Front(body), "'"))?;
            say_count(said, characters, " of one character", " characters")
        }
        Token::Binary(digits) => {
            said.say(("the binary \"", Front(digits), "\""))?;
            match u64::try_from(binary_bits(digits)) {
                Ok(bits) => say_count(said, bits, " of one bit", " bits"),
                Err(_) => Ok(()),
            }
        }
        Token::LParen => say_list(said, element_count(text, start)),
        Token::Keyword(keyword) | Token::UserKeyword(keyword) => {
            said.say(("a value of the type ", Front(keyword)))
        }
        _ => said.say("no value"),
    }
}

/// Adds a list of so many elements.
fn say_list(said: &mut Said, count: u64) -> Result<(), AllocError> {
    if count == 0 {
        return said.say("an empty list");
    }
    said.say("a list")?;
    say_count(said, count, " of one element", " elements")
}

/// Adds of how many things a value is.
fn say_count(said: &mut Said, count: u64, one: &str, several: &str) -> Result<(), AllocError> {
    if count == 1 {
        said.say(one)
    } else {
        said.say((" of ", count, several))
    }
}

/// How many elements the list has whose parenthesis stands at a place.
pub(crate) fn element_count(text: &[u8], at: usize) -> u64
    requires { at ≤ length text.now }
{
    let mut walk = Walk::new(text, at);
    let mut commas: u64 = 0;
    let mut empty = true;
    for _ in 0..text.len() {
        let lexed = walk.next();
        match lexed.token {
            Token::RParen if walk.open() == 0 => break,
            Token::End | Token::Bad => break,
            Token::Comma if walk.open() == 1 => commas = commas.saturating_add(1),
            Token::LParen if lexed.start == at => {}
            _ => empty = false,
        }
    }
    if empty { 0 } else { commas.saturating_add(1) }
}
