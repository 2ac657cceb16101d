//! Laws of the definitions: what each function ensures holds of every schema and file. A caller calls one to learn its law.

ghost use Rattle.std.specs.Prelude.{ℕ, List};
ghost use Rattle.p21_express.specs.Schema.{Schema};
ghost use Rattle.p21_reader.specs.Laws.{HasOneListOfPiecesAtMost, HasOneReadingAtMost, LocalReadingIsReading, PiecesAreInstances, PiecesGiveFile, PiecesOfFileAreInstances, ValuesGiveReading};

use p21_check::{one_header_fault, one_local_fault, one_reference_fault};
use p21_cut::{first_tokens_of_file, pieces_are_unique, tokens_of_next_piece};
use p21_text::{first_is_unique, tokens_are_unique};
use p21_tree::{
    faults_of_tokens, one_beginning, one_fault_at_most, one_semicolon, one_tree, parts_up_to_fault,
};

/// A file has at most one reading against a schema.
pub fn one_reading()
    ensures { (s : Schema) → (file : List ℕ) → HasOneReadingAtMost s file }
{
    tokens_are_unique();
    first_is_unique();
    one_tree();
    one_beginning();
    one_fault_at_most();
    faults_of_tokens();
    one_header_fault();
    one_local_fault();
    one_reference_fault();
}

/// A file has at most one list of pieces against a schema. So where two readings by lanes speak of its pieces, they speak of the same.
pub fn one_list_of_pieces()
    ensures { (s : Schema) → (file : List ℕ) → HasOneListOfPiecesAtMost s file }
{
    pieces_are_unique();
    first_is_unique();
    one_tree();
    one_beginning();
    one_header_fault();
}

/// Behind a preface, reading the pieces of a file in order and then its tail gives the tree of the file, or its grammar fault
/// and the instances that stand whole before it.
pub fn pieces_in_order()
    ensures { (file : List ℕ) → PiecesGiveFile file }
{
    first_tokens_of_file();
    parts_up_to_fault();
}

/// Behind a preface whose header has no fault, the answer to what the pieces of a file are by themselves is the reading of the
/// file: the first fault of the pieces, else that of the tail, else the first reference fault, else the instances. So what a file
/// gives by pieces that were judged as `LocalReader` does is its reading, and these are its pieces.
pub fn values_give_reading()
    // After a preface whose header has no fault, the reading of the file is the first fault of its pieces, each
    // judged by itself but for its name; else that of the tail; else the first reference fault; else the instances.
    ensures of_values { (s : Schema) → (file : List ℕ) → ValuesGiveReading s file }
    // So what a file gives by pieces that are judged as `LocalReader` does is its reading, and these are its pieces.
    ensures of_judged { (s : Schema) → (file : List ℕ) → LocalReadingIsReading s file }
{
    first_tokens_of_file();
    parts_up_to_fault();
}

/// The pieces of a file that is a sentence are its instances, one by one in their order, and its tail stands after them: those
/// after its preface, and so those of the file against a schema, where no fault stands before the instances.
pub fn pieces_are_instances()
    // The pieces of a file that is a sentence are its instances, one by one in order, and its tail follows them.
    ensures behind_preface { (file : List ℕ) → PiecesAreInstances file }
    // The same of the pieces of a file against a schema, where there is no fault before the instances.
    ensures of_file { (s : Schema) → (file : List ℕ) → PiecesOfFileAreInstances s file }
{
    first_is_unique();
    tokens_of_next_piece();
    one_semicolon();
    one_tree();
    one_beginning();
}
