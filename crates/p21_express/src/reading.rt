//! Declarations from a text.

ghost use Rattle.std.specs.Prelude.{◌≡◌, ◌≤◌, ℕ, List, IfOk, IfErr, length, map};
ghost use Rattle.std.specs.Char.{to_ascii_uppercase};
ghost use Rattle.std.specs.List.{AllByRecursion};
ghost use Rattle.p21_express.specs.Plain.{plain_schema};
ghost use Rattle.p21_express.specs.Answer.{IsForm, HasNoForm, HasNoReading, OnRefusal};
ghost use Rattle.p21_express.specs.Misfit.{form_error, misfit_error, IsRefusedAs, IsUnfitAs};
ghost use Rattle.p21_express.specs.SchemaFault.{IsSchemaFault};
ghost use Rattle.p21_express.specs.Reader.{words_of, Gives, schema_at, if_whole};
ghost use Rattle.p21_express.specs.Schema.{Schema};
ghost use Rattle.p21_express.specs.Reading.{IsReading};
ghost use Rattle.p21_express.specs.Word.{Word};
ghost use Rattle.p21_express.specs.Words.{AreWords};

use crate::checks::check;
use crate::declarations::Declarations;
use crate::error::SchemaError;
use crate::misfit::{Misfit, Unfit};
use crate::places::{EntityPlaces, TypePlaces};
use crate::refusal::{Kind, Refusal};
use crate::schema::schema;
use crate::words::{Scanned, scan};
use std::alloc::{AllocError, Global};

/// The place of a text from which on so many of its words stand, by the places of its words as `scan` has them.
pub fn place_at(places: &[usize], left: usize) -> u64
    // The place is at most the greatest of the places. That it is the place of the word is known by review.
    ensures { (n : ℕ) → AllByRecursion (λ place. place ≤ n) places.now → result ≤ n }
{
    match places.get(places.len().saturating_sub(left.saturating_add(1))) {
        Some(place) => *place as u64,
        None => 0,
    }
}

/// The error of a kind at a place.
fn form_error(kind: Kind, place: u64) -> SchemaError
    ensures { result ≡ form_error kind place }
{
    match kind {
        Kind::Syntax => SchemaError::Syntax(place),
        Kind::NotSupported => SchemaError::NotSupported(place),
    }
}

/// The error of declarations at a place.
fn misfit_error(misfit: Misfit, place: u64) -> SchemaError
    ensures { result ≡ misfit_error misfit place }
{
    match misfit {
        Misfit::Repeated => SchemaError::Repeated(place),
        Misfit::UnknownName => SchemaError::UnknownName(place),
        Misfit::LoneSelect => SchemaError::NotSupported(place),
        Misfit::Cycle => SchemaError::Cycle(place),
        Misfit::BadRedeclaration => SchemaError::BadRedeclaration(place),
    }
}

/// The error of words that were refused, by the places of the words of the text as `scan` has them.
pub fn refused_as(refusal: Refusal, places: &[usize]) -> SchemaError
    // The error has the kind of the refusal, or says that memory ran out; its place is at most the greatest of the
    // places.
    ensures { (n : ℕ) → AllByRecursion (λ place. place ≤ n) places.now → IsRefusedAs n refusal result }
{
    match refusal {
        Refusal::Refused(kind, left) => form_error(kind, place_at(places, left)),
        Refusal::Memory => SchemaError::Memory,
    }
}

/// The error of declarations that do not fit together.
fn unfit_as(unfit: Unfit, places: &[usize]) -> SchemaError
    ensures { (n : ℕ) → AllByRecursion (λ place. place ≤ n) places.now → IsUnfitAs n unfit result }
{
    match unfit {
        Unfit::Found(misfit, left) => misfit_error(misfit, place_at(places, left)),
        Unfit::Memory => SchemaError::Memory,
    }
}

/// The declarations of a text by its words, and where their names stand. Nothing is checked but their form.
fn parsed(
    alloc: Global,
    scanned: &Scanned,
) -> Result<(Declarations, Vec<EntityPlaces>, Vec<TypePlaces>), Refusal>
    ensures { Gives (λ x. plain_schema x.0) result (if_whole scanned.now.is_whole (schema_at (words_of scanned.now.words.items))) }
{
    let found = schema(alloc, &scanned.words)?;
    if !scanned.is_whole {
        return Err(Refusal::syntax(0));
    }
    Ok(found)
}

/// A text in upper case. Memory alone can fail.
pub fn upper_case(alloc: Global, text: &[u8]) -> Result<Vec<u8>, AllocError>
    ensures { IfOk result (λ upper. upper.items ≡ map to_ascii_uppercase text.now) }
{
    text.iter()
        .map(|byte| byte.to_ascii_uppercase())
        .collect(alloc)
}

/// What a text has by the grammar alone.
#[derive(Drop)]
struct Form {
    declarations: Declarations,
    entity_places: Vec<EntityPlaces>,
    type_places: Vec<TypePlaces>,
    /// Where the words of the text begin, and the place after the last.
    places: Vec<usize>,
}

/// The declarations of a schema's text by the grammar alone.
fn read_form(alloc: Global, text: &[u8]) -> Result<Form, SchemaError>
    ensures ok { IfOk result (λ found. IsForm text.now (plain_schema found.declarations)) }
    ensures places { IfOk result (λ found. AllByRecursion (λ place. place ≤ length text.now) found.places.items) }
    ensures err { IfErr result (λ e. OnRefusal e (HasNoForm text.now)) }
    ensures fault { IfErr result (λ e. IsSchemaFault text.now e) }
{
    let upper = upper_case(alloc, text)?;
    let scanned = scan(alloc, &upper)?;
    match parsed(alloc, &scanned) {
        Ok((declarations, entity_places, type_places)) => {
            let Scanned { places, .. } = scanned;
            Ok(Form {
                declarations,
                entity_places,
                type_places,
                places,
            })
        }
        Err(refusal) => Err(refused_as(refusal, &scanned.places)),
    }
}

/// The declarations of a schema's text.
///
/// A text that has no reading is refused with the first fault of the first check that finds one: its form, repeated names,
/// unknown names, cycles, redeclarations. Places are byte offsets from the text's first byte. `Memory` says that there was
/// no memory left.
///
/// Cost: O(t log t) for t words of the text. Where attributes are redeclared, O(n / 64) for each supertype that is
/// named and n * n / 8 bytes while they are checked, for n declarations; for each redeclaration, the entities that
/// newly declare its name.
pub fn read_declarations(alloc: Global, text: &[u8]) -> Result<Declarations, SchemaError>
    // The declarations are the reading of the text.
    ensures ok { IfOk result (λ found. IsReading text.now (plain_schema found)) }
    // An error other than out of memory means that the text has no reading.
    ensures err { IfErr result (λ e. OnRefusal e (HasNoReading text.now)) }
    // The kind of the fault is that of the first check that the text fails. Where its form fails, the kind is Syntax
    // or NotSupported, and where its names fail, UnknownName or NotSupported: which of the two is tested. The place
    // is within the text; which place is tested.
    ensures fault { IfErr result (λ e. IsSchemaFault text.now e) }
{
    let found = read_form(alloc, text)?;
    match check(
        alloc,
        &found.declarations,
        &found.entity_places,
        &found.type_places,
    ) {
        Ok(()) => {
            let Form { declarations, .. } = found;
            Ok(declarations)
        }
        Err(unfit) => Err(unfit_as(unfit, &found.places)),
    }
}

/// A text has at most one list of words.
pub fn one_word_list()
    ensures { (text : List ℕ) (vs ws : List Word) → AreWords text vs → AreWords text ws → vs ≡ ws }
{}

/// A text has at most one form, which is what its words are by the grammar alone. So the conditions that a text fails are those of one
/// list of declarations.
pub fn one_form()
    ensures { (text : List ℕ) (s t : Schema) → IsForm text s → IsForm text t → s ≡ t }
{}

/// A text has at most one reading.
pub fn one_reading()
    ensures { (text : List ℕ) (s t : Schema) → IsReading text s → IsReading text t → s ≡ t }
{}
