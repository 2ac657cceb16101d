//! What takes a schema: the interface of a run that needs more of its text than what it declares.

ghost use Rattle.std.specs.Prelude.{◌≡◌, ℕ, List, IfErr, IfOk};
ghost use Rattle.p21_express.specs.Answer.{OnRefusal};
ghost use Rattle.p21_express.specs.Plain.{plain_schema};
ghost use Rattle.p21_express.specs.Schema.{Schema};
ghost use Rattle.p21_express.specs.WellFormed.{IsWellFormed};
ghost use Rattle.p21_schema.specs.Rules.{with_rules};

use p21_express::{Declarations, SchemaError};
use p21_hash::HashKey;
use p21_schema::{Rules, Schema as Table};
use std::alloc::Global;

/// A schema, and what was taken from its text beside it.
#[derive(Drop)]
pub struct Accepted<T> {
    pub schema: Table,
    pub taken: T,
}

/// What takes a schema.
///
/// Its ghost `takes` says what it takes from a text, and `refuses` which schema it refuses.
pub trait Accepts {
    /// What it takes from the text beside the schema.
    type Taken: Drop;

    /// `takes a s text taken` says that this is what it takes from a text that declares the schema.
    ghost takes: { Self → Schema → List ℕ → Self.Taken → Type 0 };

    /// `refuses a s text` says that it refuses the schema for its text.
    ghost refuses: { Self → Schema → List ℕ → Type 0 };

    /// Makes a schema of the declarations of a text, and takes what it needs from the text, or refuses it.
    fn accept(
        &self,
        alloc: Global,
        text: &[u8],
        declarations: Declarations,
        rules: Rules,
        key: HashKey,
    ) -> Result<Accepted<Self::Taken>, SchemaError>
        requires { IsWellFormed (plain_schema declarations) }
        // The schema is that of the declarations under these rules.
        ensures schema { IfOk result (λ accepted. accepted.schema ≡ with_rules (plain_schema declarations) rules) }
        // What it needs is taken from the text.
        ensures taken { IfOk result (λ accepted. takes self.now accepted.schema text.now accepted.taken) }
        // An error other than out of memory means that it refuses the schema.
        ensures refused { IfErr result (λ e. OnRefusal e (refuses self.now (with_rules (plain_schema declarations) rules) text.now)) };
}

/// Takes each schema, and nothing from its text.
#[derive(Clone, Copy, Debug)]
pub struct AsDeclared;

impl Accepts for AsDeclared {
    type Taken = ();

    ghost takes = { λ any s text taken. Unit {0} };

    ghost refuses = { λ any s text. ⊥ };

    fn accept(
        &self,
        alloc: Global,
        _text: &[u8],
        declarations: Declarations,
        rules: Rules,
        key: HashKey,
    ) -> Result<Accepted<()>, SchemaError> {
        let schema = Table::build_with_key(alloc, declarations, rules, key)?;
        Ok(Accepted { schema, taken: () })
    }
}
