//! Files of folders, and the schemas that files name.

use p21_spelling::next_word;
use p21_text::{Token, next_token};
use std::alloc::{AllocError, Global};
use std::fs::{File, Files};
use std::io::{self, Read};
use std::str;

/// How many bytes are read at once, and how often at most of a file's front and of a folder.
const PART: usize = 4096;

const FRONT_READS: u32 = 256;

const FOLDER_READS: u32 = 1_000_000;

/// How many files and folders are looked at below a folder at most.
const MOST_FOUND: u32 = 100_000_000;

/// The endings of a file that is looked for in a folder.
const STEP: [&str; 4] = [".ifc", ".stp", ".step", ".p21"];

/// A schema by its name.
#[derive(Drop)]
pub(crate) struct NamedSchema {
    name: Vec<u8>,
    path: String,
}

/// The schemas of a folder: what ends in `.exp`, can be read and begins with SCHEMA and a name. They are in the order of the names of their files.
pub(crate) fn schemas_in<R: Files>(
    rt: &R,
    alloc: Global,
    folder: &str,
) -> io::Result<Vec<NamedSchema>> {
    let mut schemas = Vec::new(alloc);
    for file in &names_in(rt, alloc, folder)? {
        if has_ending(file.as_bytes(), ".exp") {
            let path = format!(in alloc; "{folder}/{file}")?;
            if let Ok(front) = front_of(rt, alloc, path.as_str()) {
                push_schema(alloc, &mut schemas, &front, path)?;
            }
        }
    }
    Ok(schemas)
}

/// Adds a schema, if its text has a name.
fn push_schema(
    alloc: Global,
    schemas: &mut Vec<NamedSchema>,
    text: &[u8],
    path: String,
) -> Result<(), AllocError> {
    if let Some((found, _)) = words_of_schema(text) {
        let mut name = Vec::new(alloc);
        name.extend_from_slice(found)?;
        schemas.push(NamedSchema { name, path })?;
    }
    Ok(())
}

/// The path of the first schema of a name, whatever the case of its letters.
pub(crate) fn path_of<'a>(schemas: &'a [NamedSchema], name: &[u8]) -> Option<&'a str> {
    for schema in schemas {
        if schema.name.eq_ignore_ascii_case(name) {
            return Some(schema.path.as_str());
        }
    }
    None
}

/// The name after the word SCHEMA with which a text begins, and what stands after the name.
pub(crate) fn words_of_schema(text: &[u8]) -> Option<(&[u8], &[u8])> {
    let (word, rest) = next_word(text)?;
    if word.eq_ignore_ascii_case(b"SCHEMA") {
        next_word(rest)
    } else {
        None
    }
}

/// The name of the schema in the front of a file: what FILE_SCHEMA has before the first blank or brace.
pub(crate) fn named_schema(front: &[u8]) -> Option<&[u8]> {
    let mut at = 0;
    let mut is_behind = false;
    for _ in 0..front.len() {
        let lexed = next_token(front, at.min(front.len()));
        match lexed.token {
            Token::End | Token::Bad | Token::Keyword(b"ENDSEC") => return None,
            Token::Keyword(b"FILE_SCHEMA") => is_behind = true,
            Token::Str(body) if is_behind => return Some(first_word(body)),
            _ => {}
        }
        at = lexed.after;
    }
    None
}

/// What stands before the first blank or brace.
fn first_word(body: &[u8]) -> &[u8] {
    for (len, byte) in body.iter().enumerate() {
        if *byte == b' ' || *byte == b'{' {
            return body.get(..len).unwrap_or(body);
        }
    }
    body
}

/// Whether something is at a path that is no regular file, as a pipe or a device: it may have no end, and cannot be read twice.
pub(crate) fn is_no_file<R: Files>(rt: &R, path: &str) -> bool {
    rt.metadata(path).is_ok_and(|found| !found.is_file())
}

/// The first bytes of a file, at most a megabyte; of what is no regular file none are read.
pub(crate) fn front_of<R: Files>(rt: &R, alloc: Global, path: &str) -> io::Result<Vec<u8>> {
    if is_no_file(rt, path) {
        return Err(io::Error::from(io::ErrorKind::InvalidInput));
    }
    read_path(rt, alloc, path, FRONT_READS)
}

/// What so many reads of a file give.
pub(crate) fn read_path<R: Files>(
    rt: &R,
    alloc: Global,
    path: &str,
    reads: u32,
) -> io::Result<Vec<u8>> {
    let mut file = File::open(rt, path)?;
    read_all(alloc, &mut file, reads)
}

/// What so many reads give.
fn read_all<T: Read>(alloc: Global, from: &mut T, reads: u32) -> io::Result<Vec<u8>> {
    let mut bytes = Vec::new(alloc);
    let mut part = [0; PART];
    for _ in 0..reads {
        let count = from.read(&mut part)?;
        if count == 0 {
            break;
        }
        bytes.extend_from_slice(part.get(..count).unwrap_or(b"".as_slice()))?;
    }
    Ok(bytes)
}

/// The names in a folder, in their order; those that are no text are left out.
fn names_in<R: Files>(rt: &R, alloc: Global, folder: &str) -> io::Result<Vec<String>> {
    let path = format!(in alloc; "{folder}/")?;
    let mut listed = rt.open_dir(path.as_str())?;
    let bytes = read_all(alloc, &mut listed, FOLDER_READS)?;
    let mut names = Vec::new(alloc);
    for name in bytes.split(|byte| *byte == 0) {
        if let Ok(name) = str::from_utf8(name) {
            if !matches!(name, "" | "." | "..") {
                names.push(format!(in alloc; "{name}")?)?;
            }
        }
    }
    names.sort()?;
    Ok(names)
}

/// The file of a path; or of a folder those files of STEP below it, in the order of their names. What cannot be looked at stands for itself.
pub(crate) fn files_in<R: Files>(
    rt: &R,
    alloc: Global,
    path: &str,
) -> Result<Vec<String>, AllocError> {
    let mut files = Vec::new(alloc);
    let mut left = Vec::new(alloc);
    let given = format!(in alloc; "{path}")?;
    if rt.metadata(path).is_ok_and(|found| found.is_dir()) {
        push_names(rt, alloc, &mut left, &mut files, given)?;
    } else {
        files.push(given)?;
    }
    for _ in 0..MOST_FOUND {
        let Some(path) = left.pop() else {
            break;
        };
        // A link to a folder is not followed: it may lead to one that holds it.
        if rt
            .symlink_metadata(path.as_str())
            .is_ok_and(|found| found.is_dir())
        {
            push_names(rt, alloc, &mut left, &mut files, path)?;
        } else if STEP.iter().any(|it| has_ending(path.as_bytes(), it)) {
            files.push(path)?;
        }
    }
    Ok(files)
}

/// Adds what is in a folder, the first name last; where it cannot be read, the folder itself to the files.
fn push_names<R: Files>(
    rt: &R,
    alloc: Global,
    left: &mut Vec<String>,
    files: &mut Vec<String>,
    folder: String,
) -> Result<(), AllocError> {
    let Ok(names) = names_in(rt, alloc, folder.as_str()) else {
        files.push(folder)?;
        return Ok(());
    };
    for name in names.iter().rev() {
        left.push(format!(in alloc; "{folder}/{name}")?)?;
    }
    Ok(())
}

/// Whether a name ends so, in either case.
fn has_ending(name: &[u8], ending: &str) -> bool {
    let start = name.len().saturating_sub(ending.len());
    name.get(start..)
        .is_some_and(|it| it.eq_ignore_ascii_case(ending.as_bytes()))
}
