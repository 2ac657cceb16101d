//! What a worker finds in a piece: an instance as it stands, its outline, or a fault.

ghost use Rattle.std.specs.Prelude.{◌≡◌};

use p21_tree::{Fault, FaultKind, RawInstance};
use std::snapshot::Snapshot;

/// What a piece is by itself, of which no outline is kept.
#[derive(Drop)]
pub enum Checked<'a> {
    /// No instance: its first grammar fault.
    Grammar(Fault),
    /// An instance, whose tree was let go.
    Whole(CheckedInstance<'a>),
}

/// What is kept of an instance that has a fault by itself, or stands after a piece that has one.
#[derive(Drop)]
pub struct CheckedInstance<'a> {
    /// Its name.
    pub name: u64,
    /// Where its `#` stands, in bytes from the file's first byte.
    pub at: u64,
    /// The fault that it has by itself, if it has one.
    pub own: Option<FaultKind>,
    /// The instance, as clauses see it.
    pub gone: Snapshot<RawInstance<'a>>,
    ghost named: { name ≡ gone.value.name },
    ghost placed: { at ≡ gone.value.at },
}

impl<'a> CheckedInstance<'a> {
    /// What is kept of an instance with this fault, if it has one.
    pub(crate) fn of(instance: &RawInstance<'a>, own: Option<FaultKind>) -> CheckedInstance<'a>
        ensures gone { result.gone.value ≡ instance.now }
        ensures own { result.own ≡ own }
    {
        CheckedInstance {
            name: instance.name,
            at: instance.at,
            own,
            gone: Snapshot::of(instance),
        }
    }
}
