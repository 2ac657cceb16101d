//! Laws of the definitions: what each function ensures holds of every schema and value. A caller calls one to learn its law.

ghost use Rattle.std.specs.Prelude.{ℕ, List};
ghost use Rattle.p21_express.specs.Schema.{Schema};
ghost use Rattle.p21_express.specs.WellFormed.{IsWellFormed};
ghost use Rattle.p21_express.specs.Reading.{IsReading};
ghost use Rattle.p21_json.specs.Keys.{HasNames};
ghost use Rattle.p21_json.specs.Laws.{BecomesNumber, HasDistinctKeys, LosesNoMember, LosesNothing, LosesNoValue, WritesMembers};

/// Each integer and each real of a file is a number of JSON as it is written.
pub fn numbers_stay_numbers()
    ensures { (v : List ℕ) → BecomesNumber v }
{}

/// Nothing of a value is lost but how it is spelled: two values of one type with the same tokens are the same but for `+` and zeros in
/// front of numbers, a zero after a point, and the directives of strings.
///
/// Values of one type of a well-formed schema, as files spell them, read as BOOLEAN or LOGICAL only if the type is
/// so. Which code a U+FFFD replaced may differ too.
pub fn no_value_is_lost()
    ensures { (s : Schema) → IsWellFormed s → LosesNoValue s }
{}

/// Nothing of an instance is lost but how it is spelled: two without a fault by themselves, with the same tokens, or with the same under each
/// key of their objects, are the same but for that, and where they stand. The tokens of an object are those of its members.
pub fn nothing_is_lost()
    // Two instances without a fault by themselves, as files spell them, with the same tokens are the same but for
    // spelling and for where they are in the file. That a value is `*`, `$` or another, of BOOLEAN or LOGICAL, an
    // item or a string, and which entities a complex instance names, is not lost.
    ensures tokens { (s : Schema) → IsWellFormed s → LosesNothing s }
    // The same of two instances of one name, both simple or both complex, whose objects have one type and the same
    // tokens under each key, whatever the order of the members (of members with one key the last counts), where the
    // names of the schema are names.
    ensures members { (s : Schema) → IsWellFormed s → HasNames s → LosesNoMember s }
    // The tokens of the members of a record are a key and those of a value for each.
    ensures written { (s : Schema) → WritesMembers s }
{}

/// The keys of an object differ: no attribute takes the place of another. The names of a schema that was read are names.
pub fn keys_are_distinct()
    // The entities that the text of a schema declares, and the attributes that they newly declare, are called by
    // names.
    ensures names { (text : List ℕ) → (s : Schema) → IsReading text s → HasNames s }
    // Of a well-formed schema with such names no two attributes of a record have one key, whatever the case of
    // letters.
    ensures keys { (s : Schema) → IsWellFormed s → HasNames s → HasDistinctKeys s }
{}
