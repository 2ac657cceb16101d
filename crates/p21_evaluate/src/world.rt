//! What evaluations ask about instances.

ghost use Rattle.p21_values.specs.Plain.{Val, plain};
ghost use Rattle.p21_values.specs.Ends.{Gives, Outcome};
ghost use Rattle.std.specs.Prelude.{List, map};
ghost use Rattle.p21_evaluate.specs.Ends.{Replied, Replies};
ghost use Rattle.p21_evaluate.specs.declared.term.Question.{Question};
ghost use Rattle.p21_evaluate.specs.declared.term.Construction.{Construction};

use crate::term::{Construction, Question};
use p21_values::{Budget, Instances, Stop, Value};

/// What is answered about a value.
#[derive(Drop)]
pub enum Reply<'w> {
    /// This value.
    Value(Value<'w>),
    /// What the function at this place gives for the value, as of a derived attribute.
    Call(usize),
}

/// What evaluations ask about instances.
///
/// Its ghosts say what each answer is, where `known` of `Instances` holds. Elsewhere nothing is said of the answers.
pub trait World: Instances {
    /// What is answered about a value.
    ghost replied: { Self → Question → Val → Outcome Replied };
    /// What is made of values.
    ghost made: { Self → Construction → List Val → Outcome Val };

    /// Answers a question about a value.
    fn ask<'w>(
        &'w self,
        budget: &mut Budget,
        question: Question,
        of: &Value<'w>,
    ) -> Result<Reply<'w>, Stop>
        ensures { Self.known self.now → Replies result (replied self.now question (plain of.now)) };

    /// Makes a value of several.
    fn make<'w>(
        &'w self,
        budget: &mut Budget,
        construction: Construction,
        values: Vec<Value<'w>>,
    ) -> Result<Value<'w>, Stop>
        ensures { Self.known self.now → Gives result (made self.now construction (map plain values.entry.items)) };
}
