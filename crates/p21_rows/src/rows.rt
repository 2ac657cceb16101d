//! What takes the rows of a model.

ghost use Rattle.std.specs.Prelude.{◌≡◌, Bool, List, [], ◌∷◌, None, IfErr, OnOk, Option, true};
ghost use Rattle.p21_run.specs.declared.input.InputError.TheVariants.{Device};
ghost use Rattle.p21_rows.specs.Rows.{Step, begun, ended, Goes, Takes};

use crate::cell::Cell;
use crate::layout::Layout;
use p21_run::InputError;
use p21_schema::EntityId;

/// A table of a model.
#[derive(Clone, Copy, Debug, PartialEq, Eq)]
pub enum Table {
    /// What is known of the model as a whole: key and value.
    Metadata,
    /// Each instance: its name, its entity, and its place in the file.
    Instances,
    /// Each reference that is written: the name of its instance, the column, its number in that column from 0, and the name that it refers to.
    References,
    /// The records of an entity: the name of the instance, and a value for each attribute of the entity's row.
    Entity(EntityId),
}

/// What takes the rows of a model.
pub trait Rows {
    // The calls that it answered without an error, where it tells them.
    ghost taken: { Self → Option (List Step) } = { λ _. None };

    // Whether it ever answered `Device`. One that does not tell counts as if it had.
    ghost marked: { Self → Bool } = { λ _. true };

    /// Makes the tables. It is called before the first row.
    fn begin(&mut self, layout: &Layout<'_, '_>) -> Result<(), InputError>
        // If it succeeds, and it tells its calls, it has begun. That it makes tables is no clause.
        ensures taken { OnOk result (Goes (taken self.old) (taken self.new) (begun ∷ [])) }
        // `marked` says whether it answered `Device`.
        ensures mark { IfErr result (λ e. e ≡ Device → marked self.new ≡ true) };

    /// Takes a row of a table. The rows of one table come in the order of the file.
    fn insert(&mut self, table: Table, cells: Vec<Cell>) -> Result<(), InputError>
        // If it succeeds, and it tells its calls, it took this row, after those that it took before.
        ensures taken { OnOk result (Takes (taken self.old) (taken self.new) (record { table = table; cells = cells.items } ∷ [])) }
        // `marked` says whether it answered `Device`.
        ensures mark { IfErr result (λ e. e ≡ Device → marked self.new ≡ true) };

    /// Hears that there are no more.
    fn end(&mut self) -> Result<(), InputError>
        // If it succeeds, and it tells its calls, it has ended.
        ensures taken { OnOk result (Goes (taken self.old) (taken self.new) (ended ∷ [])) }
        // `marked` says whether it answered `Device`.
        ensures mark { IfErr result (λ e. e ≡ Device → marked self.new ≡ true) };
}
