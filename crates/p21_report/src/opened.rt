//! A file that is opened at its first read.

ghost use Rattle.std.specs.Prelude.{◌≡◌, false};
ghost use Rattle.std.specs.Io.{ReadsAtMost};

use p21_run::{Bounds, FILE_BOUNDS, IoFault, SCHEMA_BOUNDS, Source, Stream};
use std::fs::{File, Files, OpenFile};
use std::io;

/// What keeps the last error that it had.
pub trait LastError {
    /// The last error.
    fn error(&self) -> Option<io::Error>;
}

impl<T> LastError for Stream<T> {
    fn error(&self) -> Option<io::Error> {
        Stream::error(self)
    }
}

/// A file that is opened at its first read. One that cannot be opened, from whatever cause, failed; so did a regular one that is longer than its
/// bounds allow, of which nothing is read.
#[derive(Drop)]
pub struct Opened<'a, R: Files> {
    rt: &'a R,
    path: &'a str,
    bounds: Bounds,
    /// What is read in the place of the file.
    text: Option<Stream<&'a [u8]>>,
    file: Option<Stream<R::File>>,
    /// Why it could not be opened.
    refusal: Option<io::Error>,
    marked: bool,
    failed: bool,
}

impl<'a, R: Files> Opened<'a, R> {
    ghost use Rattle.p21_report.specs.Opened.{failure_of_opened, mark_of_opened};

    /// The schema of a path, which is not opened yet.
    pub fn schema(rt: &'a R, path: &'a str) -> Opened<'a, R>
        ensures unmarked { mark_of_opened result ≡ false }
        ensures unfailed { failure_of_opened result ≡ false }
    {
        Opened::within(rt, path, SCHEMA_BOUNDS)
    }

    /// The same, of which a text is read in the place of the file, if there is one.
    pub fn with_text(self, text: Option<&'a [u8]>) -> Opened<'a, R>
        ensures mark { mark_of_opened result ≡ mark_of_opened self.entry }
        ensures failure { failure_of_opened result ≡ failure_of_opened self.entry }
    {
        Opened {
            text: text.map(Stream::new),
            ..self
        }
    }

    /// The exchange structure of a path, which is not opened yet.
    pub fn file(rt: &'a R, path: &'a str) -> Opened<'a, R>
        ensures unmarked { mark_of_opened result ≡ false }
        ensures unfailed { failure_of_opened result ≡ false }
    {
        Opened::within(rt, path, FILE_BOUNDS)
    }

    /// The file of a path, which is not opened yet.
    pub(crate) fn within(rt: &'a R, path: &'a str, bounds: Bounds) -> Opened<'a, R>
        ensures unmarked { mark_of_opened result ≡ false }
        ensures unfailed { failure_of_opened result ≡ false }
    {
        Opened {
            rt,
            path,
            bounds,
            text: None,
            file: None,
            refusal: None,
            marked: false,
            failed: false,
        }
    }

    fn read_file(&mut self, into: &mut [u8]) -> Result<usize, IoFault>
        ensures bound { ReadsAtMost result into.new }
        ensures mark { mark_of_opened self.new ≡ mark_of_opened self.old }
        ensures failure { failure_of_opened self.new ≡ failure_of_opened self.old }
    {
        if let Some(text) = &mut self.text {
            return text.read(into);
        }
        if self.file.is_none() {
            match File::open(self.rt, self.path) {
                Ok(file) if is_longer(&file, self.bounds) => {}
                Ok(file) => self.file = Some(Stream::new(file)),
                Err(error) => self.refusal = Some(error),
            }
        }
        match &mut self.file {
            Some(file) => file.read(into),
            None => Err(IoFault::Failed),
        }
    }
}

/// Whether a file is a regular one that has more bytes than these bounds allow.
fn is_longer<F: OpenFile>(file: &F, bounds: Bounds) -> bool {
    match file.metadata() {
        Ok(found) => found.is_file() && found.len() > bounds.bytes as u64,
        Err(_) => false,
    }
}

impl<R: Files> LastError for Opened<'_, R> {
    /// The last error of opening or reading it.
    fn error(&self) -> Option<io::Error> {
        match &self.file {
            Some(file) => file.error(),
            None => self.refusal,
        }
    }
}

impl<R: Files> Source for Opened<'_, R> {
    ghost use Rattle.p21_report.specs.Opened.{failure_of_opened, mark_of_opened};

    ghost marked = { mark_of_opened };

    ghost failed = { failure_of_opened };

    fn read(&mut self, into: &mut [u8]) -> Result<usize, IoFault> {
        let result = self.read_file(into);
        self.marked |= result.is_err();
        self.failed |= matches!(result, Err(IoFault::Failed));
        result
    }
}
