//! The lists and typed values that are open while parameters are read.

ghost use Rattle.std.specs.Prelude.{◌≡◌, [], ℕ, ◌+◌, ◌≤◌};
ghost use Rattle.smallvec.specs.SmallVec.{small_vec_len};

use crate::few::Few;
use crate::params::Param;
use smallvec::SmallVec;
use std::alloc::Global;
use std::default::MadeWith;

/// An open parenthesis, and what it stands in.
#[derive(Drop)]
pub enum Frame<'a> {
    /// That of a list: the parameters before it in the list around it.
    List(Vec<Param<'a>>),
    /// That of a typed parameter: its keyword.
    Typed(&'a [u8]),
}

impl MadeWith<Global> for Frame<'_> {
    fn made_with(alloc: Global) -> Self {
        Frame::List(Vec::new(alloc))
    }
}

/// What stands open after the parenthesis of a record. One nest is used for record after record, so that its vectors
/// are grown once.
#[derive(Drop)]
pub struct Nest<'a> {
    /// The parameters of the innermost open list, without one after its last comma.
    pub current: Vec<Param<'a>>,
    /// The open parentheses inside the record's, the outermost first.
    pub frames: SmallVec<Frame<'a>, 4>,
    /// How many more may be opened.
    pub room: usize,
    /// Memory for the parameters of the next list that is opened.
    pub spare: Vec<Param<'a>>,
    ghost shallow: { room + small_vec_len frames ≤ 64 },
}

impl<'a> Nest<'a> {
    /// Nothing stands open, and nothing may be opened.
    pub fn new(alloc: Global) -> Self {
        Nest {
            current: Vec::new(alloc),
            frames: SmallVec::new(alloc),
            room: 0,
            spare: Vec::new(alloc),
        }
    }

    /// Begins a record, inside whose parenthesis so many more may be opened.
    pub fn restart(&mut self, room: usize)
        requires { room ≤ 64 }
        ensures current { self.new.current.items ≡ [] }
        ensures frames { self.new.frames.items ≡ [] }
        ensures room { self.new.room ≡ room }
    {
        if !self.current.is_empty() {
            self.current.clear();
        }
        if !self.frames.is_empty() {
            self.frames.clear();
        }
        self.room = room;
    }
}

/// What is expected next.
#[derive(Drop)]
pub enum Mode<'a> {
    /// A first parameter, or the end of an empty list.
    First,
    /// A parameter.
    Want,
    /// The parenthesis after a keyword.
    Key(&'a [u8]),
    /// What stands after this parameter.
    After(Param<'a>),
}

/// What a token did.
#[derive(Drop)]
pub enum Step<'a> {
    /// It was taken.
    Go(Mode<'a>),
    /// It closed the record's parenthesis, after these parameters.
    Closed(Few<Param<'a>>),
    /// It fits at no limit of parentheses, or is a keyword at this one.
    Refused,
    /// It is a parenthesis that the limit refuses.
    TooDeep,
}

/// What a token may do among parameters.
#[derive(Drop)]
pub enum Class<'a> {
    /// It is a parameter.
    Leaf(Param<'a>),
    /// It is the keyword of a typed parameter.
    Key(&'a [u8]),
    /// It opens a list.
    Open,
    /// It closes a parenthesis.
    Close,
    /// It stands between parameters.
    Comma,
    /// Nothing of these.
    Other,
}
