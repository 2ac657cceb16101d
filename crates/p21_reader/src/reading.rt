//! What reading a file gives.

use crate::judged::Judgement;
use crate::stop::Stop;
use p21_crew::Returned;
use p21_join::Model;
use p21_lanes::Receipt;
use p21_tree::{Fault, Piece};
use std::alloc::Global;

/// What reading a file gave.
#[derive(Drop)]
pub struct Reading<'a> {
    /// The instances of the file in their order, or its first fault.
    pub answer: Result<Model<'a>, Fault>,
    /// What each lane received, by its number; none of a file that was read by one thread, or has a fault before its instances.
    pub receipts: Vec<Receipt<Piece<'a>>>,
    /// What each lane returned, by its number: its history, and no values. None where there are no receipts.
    pub returned: Vec<Receipt<Returned<Judgement<'a>>>>,
    /// The lane that each piece of the file was dealt to; none where there are no receipts.
    pub dealt: Vec<u32>,
}

impl<'a> Reading<'a> {
    ghost use Rattle.std.specs.Prelude.{◌≡◌, [], IfOk};
    ghost use Rattle.p21_reader.specs.Stopped.{IsStopped};

    /// An answer without lanes. This takes no memory.
    pub(crate) fn without_lanes(alloc: Global, answer: Result<Model<'a>, Fault>) -> Reading<'a>
        ensures answer { result.answer ≡ answer.entry }
        ensures lanes { (result.receipts.items ≡ []) × (result.dealt.items ≡ []) × (result.returned.items ≡ []) }
    {
        Reading {
            answer,
            receipts: Vec::new(alloc),
            returned: Vec::new(alloc),
            dealt: Vec::new(alloc),
        }
    }

    /// The reading of a file that was not read further: its fault, or lack of memory.
    pub(crate) fn stopped(alloc: Global, stop: Stop) -> Result<Reading<'a>, ReadError>
        ensures { IfOk result (IsStopped stop) }
    {
        match stop {
            Stop::Fault(fault) => Ok(Reading::without_lanes(alloc, Err(fault))),
            Stop::Memory => Err(ReadError::Memory),
        }
    }
}

/// Why a reading gave no answer.
#[derive(Clone, Copy, Debug, PartialEq, Eq)]
pub enum ReadError {
    /// Memory was refused, or a thread for a lane.
    Memory,
}
