//! Laws of all faults: what each function ensures holds of every schema and file. A caller calls one to learn its law.

ghost use Rattle.std.specs.Prelude.{ℕ, List};
ghost use Rattle.p21_express.specs.Schema.{Schema};
ghost use Rattle.p21_reader.specs.AllLaws.{AllFaultsBeginWithReading, AllFaultsGiveReading, HasOneListOfFaultsAtMost, ValuesGiveAllFaults};

use crate::laws::one_reading;
use p21_check::{one_header_fault, one_local_fault, one_reference_fault};
use p21_cut::first_tokens_of_file;
use p21_text::{first_is_unique, tokens_are_unique};
use p21_tree::{faults_of_tokens, one_beginning, one_fault_at_most, one_tree, parts_up_to_fault};

/// A file has at most one list of all faults against a schema.
pub fn one_list_of_faults()
    ensures { (s : Schema) → (file : List ℕ) → HasOneListOfFaultsAtMost s file }
{
    tokens_are_unique();
    first_is_unique();
    one_tree();
    one_beginning();
    one_fault_at_most();
    faults_of_tokens();
    one_header_fault();
    one_local_fault();
    one_reference_fault();
}

/// A file has no fault of all exactly where its reading is a model, and else the first of all is the fault of its reading. Where it
/// has a list of all faults, it has such a reading.
pub fn all_begin_with_reading()
    // All faults of a file are none exactly where its reading is a model. Otherwise the first of them is the fault of
    // its reading.
    ensures begin { (s : Schema) → (file : List ℕ) → AllFaultsBeginWithReading s file }
    // Where a file has a list of all faults, it has a reading with which these begin.
    ensures reading { (s : Schema) → (file : List ℕ) → AllFaultsGiveReading s file }
{
    first_is_unique();
    one_reading();
}

/// Behind a preface whose header has no fault, the answer with all faults to what the pieces of a file are by themselves is that
/// of the file.
pub fn values_give_all_faults()
    // All faults are those of the pieces before the first grammar fault, each judged by itself but for its name, and
    // then that fault, of a piece or of the tail; where there is none of these, the reference faults; where there are
    // none either, the answer is the instances.
    ensures { (s : Schema) → (file : List ℕ) → ValuesGiveAllFaults s file }
{
    first_tokens_of_file();
    parts_up_to_fault();
}
