//! Laws of the definitions: what each function ensures holds of every schema. A caller calls one to learn its law.

ghost use Rattle.std.specs.Prelude.{ℕ, List, Option};
ghost use Rattle.p21_express.specs.Schema.{Schema};
ghost use Rattle.p21_tree.specs.Sentence.{Instance, Opening};
ghost use Rattle.p21_check.specs.Laws.{HasOneHeaderFault, HasOneLocalFault, HasOneReferenceFault, PassesNoLocalFault, PassesNoReferenceFault, PassesAnswered, RefusesUnanswered};
ghost use Rattle.p21_check.specs.declared.referred.Reference.{Reference};

use p21_text::items_are_unique;

/// A header section has no fault against a schema, or one: no two answers are right of it.
pub fn one_header_fault()
    ensures { (s : Schema) → (opening : Opening) → HasOneHeaderFault s opening }
{
    items_are_unique();
}

/// An instance has no fault by itself against a schema, or one: no two answers are right of it.
pub fn one_local_fault()
    ensures { (s : Schema) → (i : Instance) → HasOneLocalFault s i }
{}

/// The references of an instance have no fault against a schema, or one first fault, whatever instances have the names: no two
/// answers are right of them.
pub fn one_reference_fault()
    ensures { (s : Schema) → (named : ℕ → Option Instance) → (i : Instance) → HasOneReferenceFault s named i }
{}

/// What has a fault has no reading: where an instance has one by itself, or one of its references is at fault, the answer that
/// there is none is not right of it, whatever other faults it has and whichever comes first.
pub fn fault_has_no_reading()
    // An instance that has a fault by itself does not have the result that it has none.
    ensures local { (s : Schema) → (i : Instance) → PassesNoLocalFault s i }
    // The same of an instance of which a reference is at fault.
    ensures references { (s : Schema) → (named : ℕ → Option Instance) → (i : Instance) → PassesNoReferenceFault s named i }
{}

/// The references of an instance decide: where each is answered, they have no fault (`answered`), and where one is not, they have
/// one (`unanswered`).
pub fn references_decide()
    // Where each of what stands for the references of an instance is answered, they have no fault.
    ensures answered { (s : Schema) → (named : ℕ → Option Instance) → (i : Instance) → (rs : List Reference) → PassesAnswered s named i rs }
    // Where one is not, they have one.
    ensures unanswered { (s : Schema) → (named : ℕ → Option Instance) → (i : Instance) → (rs : List Reference) → RefusesUnanswered s named i rs }
{}
