//! Where an export goes to.

use crate::words::{Onto, Wanted};
use p21_report::{input_at, is_one_file};
use std::alloc::Global;
use std::fs::{self, Metadata};
use std::io;
use std::os::unix::fs::MetadataExt;
use std::path::PathBuf;

/// How many links are followed at most, one after the other, as the system does.
const LINKS: u32 = 40;

/// The place of an export: the path that OUT names after all links, and what stands there before.
#[derive(Drop)]
pub(crate) struct Place {
    path: PathBuf,
    before: Option<Metadata>,
}

impl Place {
    /// The place that a path names. A link stays, whether something stands where it leads to or not.
    pub(crate) fn of(host: &HostRuntime, alloc: Global, path: &str) -> io::Result<Place> {
        let mut path = PathBuf::from_str(alloc, path)?;
        for _ in 0..LINKS {
            match fs::symlink_metadata(host, &path) {
                Ok(found) if found.is_symlink() => {
                    let onto = fs::read_link(host, &path)?;
                    path.pop();
                    path.push(onto)?;
                }
                Ok(found) => {
                    return Ok(Place {
                        path,
                        before: Some(found),
                    });
                }
                Err(error) if error.kind() == io::ErrorKind::NotFound => {
                    return Ok(Place { path, before: None });
                }
                Err(error) => return Err(error),
            }
        }
        Err(io::Error::from(io::ErrorKind::FilesystemLoop))
    }

    /// Its path.
    pub(crate) fn path(&self) -> &str {
        self.path.as_str()
    }

    /// What stands there before.
    pub(crate) fn before(&self) -> Option<&Metadata> {
        self.before.as_ref()
    }

    /// The mode of a file that is made to take the place: until it does, it is its owner's alone where something stands there.
    pub(crate) fn first_mode(&self) -> u32 {
        if self.before.is_some() { 0o600 } else { 0o666 }
    }
}

/// Whether something stands at the path that is no regular file, as a device or a pipe: nothing may take its place.
pub(crate) fn is_no_file(host: &HostRuntime, path: &str) -> bool {
    match fs::metadata(host, path) {
        Ok(found) => !found.is_file(),
        Err(_) => false,
    }
}

/// The path that the model is written to; none where that is the standard output.
fn out_of<'a>(wanted: &Wanted<'a>) -> Option<&'a str> {
    match wanted.onto {
        Onto::Json("-") => None,
        Onto::Json(path) => Some(path),
        Onto::Sqlite(path) => Some(path),
    }
}

/// The input whose file OUT is too, through whatever links and under whatever names, if it is one.
pub(crate) fn input_at_place(host: &HostRuntime, wanted: &Wanted<'_>) -> Option<&'static str> {
    input_at(host, out_of(wanted)?, wanted.schema, wanted.file)
}

/// Whether the text of the schema would be written over an input, or where the model is written to.
pub(crate) fn is_schema_misplaced(host: &HostRuntime, wanted: &Wanted<'_>) -> bool {
    let Some(path) = wanted.write_schema else {
        return false;
    };
    let is_out = match out_of(wanted) {
        Some(out) => out == path || is_one_file(host, out, path),
        None => false,
    };
    is_out || input_at(host, path, wanted.schema, wanted.file).is_some()
}
