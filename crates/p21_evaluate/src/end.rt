//! How statements end.

ghost use Rattle.std.specs.Prelude.{◌≡◌, ◌↔◌, IsTrue};
ghost use Rattle.p21_evaluate.specs.declared.end.End.TheVariants.{GoesOn};
ghost use Rattle.p21_evaluate.specs.Ends.{leaves};

use p21_values::Value;

/// How a statement ends.
#[derive(Drop)]
pub(crate) enum End<'w> {
    /// The next statement is run.
    GoesOn,
    /// The loop around it ends.
    Escapes,
    /// The loop around it goes on with its next turn.
    Skips,
    /// The function has this value.
    Returns(Value<'w>),
}

impl<'w> End<'w> {
    /// How a loop ends behind a turn that ended so, where it does.
    pub(crate) fn leaves(self) -> Option<End<'w>>
        ensures { result ≡ leaves self.entry }
    {
        match self {
            End::GoesOn | End::Skips => None,
            End::Escapes => Some(End::GoesOn),
            End::Returns(value) => Some(End::Returns(value)),
        }
    }

    /// Whether the next statement is run.
    pub(crate) fn goes_on(&self) -> bool
        ensures { IsTrue result ↔ (self.now ≡ GoesOn) }
    {
        matches!(self, End::GoesOn)
    }
}
