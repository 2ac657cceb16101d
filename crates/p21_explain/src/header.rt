//! Faults of the header section.

ghost use Rattle.std.specs.Prelude.{◌≤◌, length};

use crate::explained::Subject;
use crate::walk::Walk;
use p21_printed::{Front, Said};
use p21_text::{Lexed, Token};
use std::alloc::AllocError;

/// The keywords of the first three header entities.
const WANTED: [&str; 3] = ["FILE_DESCRIPTION", "FILE_NAME", "FILE_SCHEMA"];

/// Adds which header entities are wanted, and which is not there; answers the place to look at. `HEADER` stands at `at`.
pub(crate) fn say_header_entities(
    said: &mut Said,
    file: &[u8],
    at: usize,
) -> Result<usize, AllocError>
    requires { at ≤ length file.now }
{
    for (number, wanted) in WANTED.iter().enumerate() {
        let lexed = header_entity(file, at, number);
        if lexed.token != Token::Keyword(wanted.as_bytes()) {
            let position = (number as u64).saturating_add(1);
            said.say(
                "The header must begin with FILE_DESCRIPTION, FILE_NAME and FILE_SCHEMA. Expected ",
            )?;
            said.say((*wanted, " as header entity ", position, "; found "))?;
            say_keyword(said, lexed.token)?;
            return Ok(lexed.start);
        }
    }
    said.say(
        "FILE_SCHEMA must have one parameter, a list of one string, which is the schema's name: FILE_SCHEMA(('NAME'));",
    )?;
    Ok(header_entity(file, at, 2).start)
}

fn say_keyword(said: &mut Said, token: Token<'_>) -> Result<(), AllocError> {
    match token {
        Token::Keyword(keyword) | Token::UserKeyword(keyword) => said.say((Front(keyword), ".")),
        _ => said.say("none."),
    }
}

/// Adds which schema the file names and which one it was checked against; answers the place of the name. `HEADER` stands at `at`.
pub(crate) fn say_wrong_schema(
    said: &mut Said,
    subject: Subject<'_>,
    at: usize,
) -> Result<usize, AllocError>
    requires { at ≤ length subject.file.now }
{
    let entity = header_entity(subject.file, at, 2)
        .start
        .min(subject.file.len());
    let (place, name) = first_string(subject.file, entity);
    said.say((
        "The file names the schema '",
        Front(name),
        "', but it was checked against ",
    ))?;
    said.say((subject.schema.name(), "."))?;
    Ok(place)
}

/// The first token of a header entity, by its number from 0 on, in the header that begins at a place; ENDSEC where there are not so many.
fn header_entity(file: &[u8], at: usize, number: usize) -> Lexed<'_>
    requires { at ≤ length file.now }
{
    let mut walk = Walk::new(file, at);
    let mut semicolons: usize = 0;
    for _ in at..file.len() {
        let lexed = walk.next();
        match lexed.token {
            Token::End | Token::Bad | Token::Keyword(b"ENDSEC") => return lexed,
            _ if semicolons > number => return lexed,
            Token::Semi => semicolons = semicolons.saturating_add(1),
            _ => {}
        }
    }
    walk.next()
}

/// The first string from a place on, and where it begins; nothing, at that place, where none follows.
fn first_string(file: &[u8], at: usize) -> (usize, &[u8])
    requires { at ≤ length file.now }
{
    let mut walk = Walk::new(file, at);
    for _ in at..file.len() {
        let lexed = walk.next();
        match lexed.token {
            Token::Str(body) => return (lexed.start, body),
            Token::Semi | Token::End | Token::Bad => break,
            _ => {}
        }
    }
    (at, b"")
}
