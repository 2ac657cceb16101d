//! Grammar faults: what is there, and what the grammar expects.

ghost use Rattle.std.specs.Prelude.{◌≤◌, length};

use crate::instances::{data_start, last_before};
use crate::mistakes::{instead_of_file, meant_by_bytes, meant_by_token};
use crate::spoiled::{say_spoiler, spoiler_of};
use crate::walk::Walk;
use memchr::{memchr, memchr_iter};
use p21_printed::{Front, Said, place_of};
use p21_text::{Lexed, Token, next_token};
use p21_tree::{TreeError, read_whole};
use std::alloc::{AllocError, Global};

/// What an instance may stand after it.
const PREFACE: &[u8] = b"ISO-10303-21;HEADER;ENDSEC;DATA;";

/// What the grammar may expect: how it is written, and what it is called. The first stands for the two after it, where it fits.
const EXPECTED: [(&str, &str); 13] = [
    ("$", "a parameter"),
    ("A(", "a keyword"),
    ("(", "`(`"),
    ("#1=", "an instance"),
    ("=", "`=`"),
    (",", "`,`"),
    (")", "`)`"),
    (";", "`;`"),
    ("ISO-10303-21;", "`ISO-10303-21`"),
    ("HEADER;", "`HEADER`"),
    ("DATA;", "`DATA`"),
    ("ENDSEC;", "`ENDSEC`"),
    ("END-ISO-10303-21;", "`END-ISO-10303-21`"),
];

/// What stands before a place of a file, as far as it decides what the grammar expects there.
#[derive(Drop)]
struct Before<'a> {
    alloc: Global,
    /// Where that begins.
    start: usize,
    /// The last token before the place, and its place in the file.
    last: Token<'a>,
    from: usize,
    to: usize,
    /// A text after which the grammar expects what it expects there.
    text: Vec<u8>,
}

impl<'a> Before<'a> {
    fn read(alloc: Global, file: &'a [u8], at: usize) -> Result<Before<'a>, AllocError>
        requires { at ≤ length file.now }
    {
        let mut text = Vec::new(alloc);
        let start = match data_start(alloc, file)? {
            Some(data) if data <= at => {
                text.extend_from_slice(PREFACE)?;
                last_before(file, data, at)
            }
            _ => 0,
        };
        let front = file.get(start..at).unwrap_or(b"".as_slice());
        text.extend_from_slice(front)?;
        text.push(b' ')?;
        let last = last_token(front);
        Ok(Before {
            alloc,
            start,
            last: last.token,
            from: start.saturating_add(last.start),
            to: start.saturating_add(last.after),
            text,
        })
    }

    /// Whether it is nothing, at the beginning of the file.
    fn is_beginning(&self) -> bool {
        self.start == 0 && self.last == Token::End
    }

    /// Whether the grammar goes on with some words.
    fn goes_on(&mut self, words: &str) -> Result<bool, AllocError> {
        let len = self.text.len();
        self.text.extend_from_slice(words.as_bytes())?;
        let fault = first_fault(self.alloc, self.text.as_slice())?;
        let goes_on = fault.is_none_or(|at| at >= self.text.len() as u64);
        self.text.truncate(len);
        Ok(goes_on)
    }

    /// Adds what the grammar expects.
    fn say_expected(&mut self, said: &mut Said) -> Result<(), AllocError> {
        let mut names = Vec::new(self.alloc);
        let begins_parameter = self.goes_on("$")?;
        for (number, (words, name)) in EXPECTED.iter().enumerate() {
            let is_other = begins_parameter && (number == 1 || number == 2);
            if !is_other && self.goes_on(words)? {
                names.push(*name)?;
            }
        }
        said.say("; expected ")?;
        let from = said.len();
        say_either(said, &names)?;
        said.wanted = said.since(from);
        said.say(".")
    }

    /// Adds where the string begins that is the last token, if that is in another line than its end.
    fn say_beginning(&self, said: &mut Said, file: &[u8]) -> Result<(), AllocError> {
        match self.last {
            Token::Str(body) if memchr(b'\n', body).is_some() => {
                said.say(" The string before it begins ")?;
                say_place(said, file, self.from.min(file.len()))?;
                said.say(" and is not closed in that line.")
            }
            _ => Ok(()),
        }
    }

    /// Adds after what a fault stands.
    fn say_behind(&self, said: &mut Said) -> Result<(), AllocError> {
        match self.last {
            Token::Str(body) => said.say((" after the string '", Front(body), "'")),
            Token::Keyword(word) | Token::UserKeyword(word) => said.say((" after ", Front(word))),
            _ => Ok(()),
        }
    }

    /// The name of the instance of which all stands before the place but its semicolon.
    fn unfinished(&mut self, file: &[u8]) -> Result<Option<u64>, AllocError> {
        let first = next_token(file, self.start.min(file.len())).token;
        match (first, self.last) {
            (Token::Name(name), Token::RParen) if self.goes_on(";")? => Ok(Some(name)),
            _ => Ok(None),
        }
    }
}

/// The last token of a text.
fn last_token(text: &[u8]) -> Lexed<'_> {
    let mut walk = Walk::new(text, 0);
    let mut last = Lexed {
        start: 0,
        after: 0,
        token: Token::End,
    };
    for _ in 0..text.len() {
        let lexed = walk.next();
        if matches!(lexed.token, Token::End | Token::Bad) {
            break;
        }
        last = lexed;
    }
    last
}

/// The place of the first grammar fault of a text.
fn first_fault(alloc: Global, text: &[u8]) -> Result<Option<u64>, AllocError> {
    match read_whole(alloc, text) {
        Ok(_) => Ok(None),
        Err(TreeError::Grammar(fault)) => Ok(Some(fault.at)),
        Err(TreeError::Memory) => Err(AllocError),
    }
}

/// Adds one or the other of some names; of none that nothing more may follow.
fn say_either(said: &mut Said, names: &[&str]) -> Result<(), AllocError> {
    for (position, name) in names.iter().enumerate() {
        let before = match position {
            0 => "",
            _ if position + 1 == names.len() => " or ",
            _ => ", ",
        };
        said.say((before, *name))?;
    }
    if names.is_empty() {
        return said.say("the end of the file");
    }
    Ok(())
}

/// Adds what a byte is with which no token begins, and what the grammar expects; answers the place to look at: in a string, what spoils it.
pub(crate) fn say_bad_token(said: &mut Said, file: &[u8], at: usize) -> Result<usize, AllocError>
    requires { at ≤ length file.now }
{
    let rest = &file[at..];
    if rest.first() == Some(&b'\'') {
        if let Some(spoiler) = spoiler_of(file, at) {
            said.say("In the string that begins ")?;
            say_place(said, file, at)?;
            said.say(", ")?;
            say_spoiler(said, spoiler)?;
            return Ok(spoiler.at);
        }
    }
    say_no_token(said, file, at)?;
    Ok(at)
}

/// Adds what a byte is with which no token begins, and what the grammar expects.
fn say_no_token(said: &mut Said, file: &[u8], at: usize) -> Result<(), AllocError>
    requires { at ≤ length file.now }
{
    let mut before = Before::read(said.alloc, file, at)?;
    let rest = &file[at..];
    let is_open = rest.first() == Some(&b'\'') && is_never_closed(rest);
    if is_open {
        said.say("The string that begins here is not closed")?;
    } else {
        say_byte(said, rest)?;
        before.say_behind(said)?;
    }
    before.say_expected(said)?;
    before.say_beginning(said, file)?;
    match instead_of_file(rest) {
        Some(format) if before.is_beginning() => said.say(format),
        _ if is_open => Ok(()),
        _ => said.say(meant_by_bytes(rest, before.last)),
    }
}

/// Adds that no token begins with a byte: its number and, where that can be shown, its character.
fn say_byte(said: &mut Said, rest: &[u8]) -> Result<(), AllocError> {
    let (byte, front) = match (rest.first(), rest.get(..1)) {
        (Some(byte), Some(front)) => (*byte, front),
        _ => return Ok(()),
    };
    said.say("No token begins with the ")?;
    let from = said.len();
    said.say(("byte ", u64::from(byte)))?;
    if byte.is_ascii_graphic() {
        said.say((" (`", front, "`)"))?;
    }
    said.found = said.since(from);
    Ok(())
}

/// Whether no quote closes the string with which a text begins, as far as the quotes tell: there is no other, or they are all in pairs,
/// each of which stands for one quote of the string. A reverse solidus can take the first of a pair to itself.
fn is_never_closed(text: &[u8]) -> bool {
    let Some(body) = text.get(1..) else {
        return false;
    };
    match memchr(b'\'', body) {
        Some(_) => memchr(b'\\', body).is_none() && has_paired_quotes(body),
        None => true,
    }
}

/// Whether the quotes of a text stand in pairs, one right after the other.
fn has_paired_quotes(text: &[u8]) -> bool {
    let mut single: Option<usize> = None;
    for at in memchr_iter(b'\'', text) {
        single = match single {
            Some(first) if first.saturating_add(1) == at => None,
            Some(_) => return false,
            None => Some(at),
        };
    }
    single.is_none()
}

/// Adds which token is there, and what the grammar expects; answers the place to look at: of an instance that is not terminated, its end.
pub(crate) fn say_unexpected(said: &mut Said, file: &[u8], at: usize) -> Result<usize, AllocError>
    requires { at ≤ length file.now }
{
    let lexed = next_token(file, at);
    let mut before = Before::read(said.alloc, file, at)?;
    if let Some(name) = before.unfinished(file)? {
        said.name = Some(name);
        said.say(("#", name, " is not terminated: expected `;` here, found "))?;
        say_token(said, file, lexed)?;
        said.say(" ")?;
        say_place(said, file, lexed.start)?;
        said.say(".")?;
        return Ok(before.to);
    }
    said.say("Found ")?;
    say_token(said, file, lexed)?;
    before.say_behind(said)?;
    before.say_expected(said)?;
    before.say_beginning(said, file)?;
    match instead_of_file(&file[lexed.start..]) {
        Some(format) if before.is_beginning() => said.say(format)?,
        _ => said.say(meant_by_token(lexed.token, before.last))?,
    }
    Ok(at)
}

/// Adds a token as it is written.
fn say_token(said: &mut Said, file: &[u8], lexed: Lexed<'_>) -> Result<(), AllocError> {
    let written = file.get(lexed.start..lexed.after);
    said.say("`")?;
    let from = said.len();
    said.say(Front(written.unwrap_or(b"".as_slice())))?;
    said.found = said.since(from);
    said.say("`")
}

/// Adds the line and the column of a place.
fn say_place(said: &mut Said, file: &[u8], at: usize) -> Result<(), AllocError>
    requires { at ≤ length file.now }
{
    let place = place_of(file, at);
    said.say((
        "at line ",
        place.line as u64,
        ", column ",
        place.column as u64,
    ))
}

/// Adds what the grammar expects where the file ends.
pub(crate) fn say_truncated(said: &mut Said, file: &[u8], at: usize) -> Result<(), AllocError>
    requires { at ≤ length file.now }
{
    said.say("The file ends here")?;
    Before::read(said.alloc, file, at)?.say_expected(said)
}
