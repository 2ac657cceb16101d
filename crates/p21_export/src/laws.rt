//! Laws of the definitions: what each function ensures holds of every schema and file. A caller calls one to learn its law.

ghost use Rattle.std.specs.Prelude.{ℕ, List};
ghost use Rattle.p21_express.specs.Schema.{Schema};
ghost use Rattle.p21_tree.specs.Sentence.{Instance};
ghost use Rattle.p21_export.specs.Laws.{AreAllKnown, AreSound};

/// The laws of `p21_json` hold of each instance that is exported: it has no fault by itself, its numbers are spelled as integers and reals
/// are, and so are its names and binaries, where the file has fewer than 2^62 bytes.
///
/// So each number of an exported instance is a number of JSON, and `nothing_is_lost` holds of it.
pub fn instances_are_sound()
    ensures { (s : Schema) → (file : List ℕ) → (is : List Instance) → AreSound s file is }
{}

/// Each record of an instance that is exported is of an entity of the schema.
pub fn instances_are_known()
    ensures { (s : Schema) → (file : List ℕ) → (is : List Instance) → AreAllKnown s file is }
{}
