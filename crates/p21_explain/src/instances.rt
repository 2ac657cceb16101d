//! The instances of a file, found by place or by name.

ghost use Rattle.std.specs.Prelude.{◌≤◌, length, IfOk, IfSome};

use p21_cut::{Cut, Cutter};
use p21_printed::{Lines, in_text};
use p21_text::{Token, next_token};
use p21_tree::{Fault, FaultKind, Piece, TreeError, read_preface};
use std::alloc::{AllocError, Global};

/// The place after `DATA;`; none where the file has a fault before it.
pub(crate) fn data_start(alloc: Global, file: &[u8]) -> Result<Option<usize>, AllocError>
    ensures { IfOk result (λ found. IfSome found (λ at. at ≤ length file.now)) }
{
    match read_preface(alloc, file) {
        Ok(preface) => Ok(Some(preface.data_at as usize)),
        Err(TreeError::Grammar(_)) => Ok(None),
        Err(TreeError::Memory) => Err(AllocError),
    }
}

/// Where the instances are that faults of a file name: of each name the first. The file is read once, however many names there are.
#[derive(Drop)]
pub struct NamedInstances {
    names: Vec<u64>,
    /// For each name the first instance that has it.
    found: Vec<Option<NamedInstance>>,
}

/// An instance that has one of the names.
#[derive(Clone, Copy, Debug)]
pub(crate) struct NamedInstance {
    /// Its place, in bytes from the file's first byte.
    pub(crate) at: u64,
    /// Its line, from 1 on.
    pub(crate) line: usize,
}

impl NamedInstances {
    /// Those that faults of the file name. Memory alone can fail.
    pub fn of_faults(
        alloc: Global,
        file: &[u8],
        faults: &[Fault],
    ) -> Result<NamedInstances, AllocError> {
        let mut names = Vec::new(alloc);
        for fault in faults {
            if let Some(name) = name_in(file, fault) {
                names.push(name)?;
            }
        }
        NamedInstances::of_names(alloc, file, names)
    }

    /// Those of these names. Memory alone can fail.
    pub fn of_names(
        alloc: Global,
        file: &[u8],
        names: Vec<u64>,
    ) -> Result<NamedInstances, AllocError> {
        let mut names = names;
        names.sort_unstable();
        names.dedup();
        let mut found = Vec::with_capacity(alloc, names.len())?;
        for _ in 0..names.len() {
            found.push(None)?;
        }
        if !names.is_empty()
            && let Some(data) = data_start(alloc, file)?
        {
            find_all(file, data, &names, &mut found);
        }
        Ok(NamedInstances { names, found })
    }

    /// The first instance of a name.
    pub(crate) fn get(&self, name: u64) -> Option<NamedInstance> {
        let position = self.names.binary_search(&name).ok()?;
        *self.found.get(position)?
    }
}

/// The name of another instance that the explanation of a fault tells of.
fn name_in(file: &[u8], fault: &Fault) -> Option<u64> {
    match fault.kind {
        FaultKind::WrongReference { name, .. } => Some(name),
        FaultKind::DuplicateName => match next_token(file, in_text(file, fault.at)).token {
            Token::Name(name) => Some(name),
            _ => None,
        },
        _ => None,
    }
}

/// Finds the first instance of each name, among those from a place on.
fn find_all(file: &[u8], from: usize, names: &[u64], found: &mut [Option<NamedInstance>])
    requires { from ≤ length file.now }
{
    let mut missing = names.len();
    let mut lines = Lines::new(file);
    let mut cutter = Cutter::new(file, from);
    for _ in 0..file.len() {
        if missing == 0 {
            return;
        }
        let Cut::Piece(piece) = cutter.next() else {
            return;
        };
        let Some(place) = place_for(names, found, &piece) else {
            continue;
        };
        *place = Some(NamedInstance {
            at: piece.at,
            line: lines.place(in_text(lines.text(), piece.at)).line,
        });
        missing = missing.saturating_sub(1);
    }
}

/// Where an instance is kept, if it is the first of one of the names.
fn place_for<'f>(
    names: &[u64],
    found: &'f mut [Option<NamedInstance>],
    piece: &Piece<'_>,
) -> Option<&'f mut Option<NamedInstance>> {
    let Token::Name(name) = next_token(piece.bytes, 0).token else {
        return None;
    };
    let position = names.binary_search(&name).ok()?;
    found.get_mut(position).filter(|place| place.is_none())
}

/// The place of the last instance, or of the tail, that begins at a place or before it, of those from another place on; that, where none
/// does.
pub(crate) fn last_before(file: &[u8], from: usize, at: usize) -> usize
    requires { from ≤ length file.now }
{
    let mut cutter = Cutter::new(file, from);
    let mut last = from;
    for _ in 0..file.len() {
        let (start, is_last) = match cutter.next() {
            Cut::Piece(piece) => (piece.at as usize, !piece.bytes.ends_with(b";")),
            Cut::Tail(start) => (start as usize, true),
        };
        if start > at {
            return last;
        }
        last = start;
        if is_last {
            return last;
        }
    }
    last
}
