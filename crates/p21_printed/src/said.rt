//! What is said of a fault, in the making.

use itoa::Buffer;
use std::alloc::{AllocError, Global};

/// The most bytes of a value, or of an unknown name, that a sentence gives.
const MOST: usize = 60;

/// Where a part of what is said stands in it.
#[derive(Clone, Copy)]
pub struct Span {
    from: usize,
    to: usize,
}

/// What is said of a fault, and where in it these parts stand.
#[derive(Drop)]
pub struct Said {
    pub alloc: Global,
    bytes: Vec<u8>,
    /// The name of the instance.
    pub name: Option<u64>,
    pub entity: Option<Span>,
    pub attribute: Option<Span>,
    pub wanted: Option<Span>,
    pub found: Option<Span>,
}

impl Said {
    /// Nothing is said yet.
    ///
    /// What is said, and where its parts are, is tested.
    pub fn new(alloc: Global) -> Said {
        Said {
            alloc,
            bytes: Vec::new(alloc),
            name: None,
            entity: None,
            attribute: None,
            wanted: None,
            found: None,
        }
    }

    /// Says more.
    pub fn say<T: Say>(&mut self, what: T) -> Result<(), AllocError> {
        what.say_in(&mut self.bytes)
    }

    /// How long it is.
    pub fn len(&self) -> usize {
        self.bytes.len()
    }

    /// What was said since it was so long.
    pub fn since(&self, from: usize) -> Option<Span> {
        Some(Span {
            from,
            to: self.bytes.len(),
        })
    }

    /// A part.
    pub fn part(&self, span: Option<Span>) -> Option<&[u8]> {
        let span = span?;
        self.bytes.get(span.from..span.to)
    }

    /// All of it.
    pub fn bytes(&self) -> &[u8] {
        &self.bytes
    }
}

/// What can be said: words, bytes as they are, a number in decimal, or some of these one after the other.
pub trait Say: Copy {
    /// Adds it.
    fn say_in(self, bytes: &mut Vec<u8>) -> Result<(), AllocError>;
}

impl Say for &str {
    fn say_in(self, bytes: &mut Vec<u8>) -> Result<(), AllocError> {
        bytes.extend_from_slice(self.as_bytes())
    }
}

impl Say for &[u8] {
    fn say_in(self, bytes: &mut Vec<u8>) -> Result<(), AllocError> {
        bytes.extend_from_slice(self)
    }
}

impl Say for u64 {
    fn say_in(self, bytes: &mut Vec<u8>) -> Result<(), AllocError> {
        bytes.extend_from_slice(Buffer::new().format(self).as_bytes())
    }
}

impl Say for i64 {
    fn say_in(self, bytes: &mut Vec<u8>) -> Result<(), AllocError> {
        bytes.extend_from_slice(Buffer::new().format(self).as_bytes())
    }
}

impl<A: Say, B: Say> Say for (A, B) {
    fn say_in(self, bytes: &mut Vec<u8>) -> Result<(), AllocError> {
        self.0.say_in(bytes)?;
        self.1.say_in(bytes)
    }
}

impl<A: Say, B: Say, C: Say> Say for (A, B, C) {
    fn say_in(self, bytes: &mut Vec<u8>) -> Result<(), AllocError> {
        self.0.say_in(bytes)?;
        self.1.say_in(bytes)?;
        self.2.say_in(bytes)
    }
}

impl<A: Say, B: Say, C: Say, D: Say> Say for (A, B, C, D) {
    fn say_in(self, bytes: &mut Vec<u8>) -> Result<(), AllocError> {
        ((self.0, self.1), (self.2, self.3)).say_in(bytes)
    }
}

/// Bytes of a file: of very many the first alone, with three points after them.
#[derive(Clone, Copy)]
pub struct Front<'a>(pub &'a [u8]);

impl Say for Front<'_> {
    fn say_in(self, bytes: &mut Vec<u8>) -> Result<(), AllocError> {
        match self.0.get(..MOST) {
            Some(front) if self.0.len() > MOST => (front, "...").say_in(bytes),
            _ => self.0.say_in(bytes),
        }
    }
}

/// The article before a name.
pub fn article(name: &[u8]) -> &'static str {
    let is_vowel = name
        .first()
        .is_some_and(|first| b"AEIOaeio".contains(first));
    if is_vowel { "an " } else { "a " }
}
