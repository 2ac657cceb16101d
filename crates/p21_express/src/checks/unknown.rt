//! Names that are not declared as what they are used for.

ghost use Rattle.std.specs.Prelude.{◌≡◌, ◌⊎◌, IsSome, MatchResult, map, option_map};
ghost use Rattle.std.specs.List.{AllByRecursion};
ghost use Rattle.p21_express.specs.Checks.{Finds, HasKnownNames, HasKnownUnder, HasNoSelectUnder, lone_name};
ghost use Rattle.p21_express.specs.Index.{IsExactIndex};
ghost use Rattle.p21_express.specs.Misfit.{OnUnfit, OfNames};
ghost use Rattle.p21_express.specs.Naming.{texts};
ghost use Rattle.p21_express.specs.Plain.{plain_schema, plain_attribute, plain_under, plain_expr};
ghost use Rattle.p21_express.specs.Schema.{Schema};
ghost use Rattle.p21_express.specs.SchemaFault.{AreKnownUnder, AreNamesKnown, HasNoLoneSelect, IsNoEntityAlone, IsNoSelectAlone, IsNoLoneSelect};
ghost use Rattle.p21_express.specs.WellFormed.{HasNoUnknown, IsEntity, IsKnown, IsSelect, IsType, name_in};

use super::names::{Declared, Index, declared_by};
use super::{Checked, First, attribute_places_at, place_at};
use crate::declarations::{AttrDecl, TypeExpr, Under};
use crate::misfit::{Misfit, Unfit};
use crate::places::AttrPlaces;

/// The name in a type, below its aggregates.
fn name_in(texpr: &TypeExpr) -> Option<&Vec<u8>>
    ensures { option_map (λ n. n.now.items) result ≡ name_in (plain_expr texpr.now) }
{
    match texpr {
        TypeExpr::Named(name) => Some(name),
        TypeExpr::Array { item, .. } => name_in(item),
        TypeExpr::List { item, .. } => name_in(item),
        TypeExpr::Set { item, .. } => name_in(item),
        TypeExpr::Bag { item, .. } => name_in(item),
        _ => None,
    }
}

/// A name that an entity or a type declares.
fn known(index: &Index, name: &[u8], left: usize, first: &mut First)
    ensures { (s : Schema) → IsExactIndex s index.now → Finds first.old.found first.new.found (IsEntity s name.now ⊎ IsType s name.now) }
{
    match declared_by(index, name) {
        Some(_) => {}
        None => first.meet(left),
    }
}

/// A name that an entity declares.
fn supertype(index: &Index, name: &[u8], left: usize, first: &mut First)
    ensures { (s : Schema) → IsExactIndex s index.now → Finds first.old.found first.new.found (IsEntity s name.now) }
{
    match declared_by(index, name) {
        Some(Declared::Entity(_)) => {}
        Some(Declared::Select(_)) => first.meet(left),
        Some(Declared::Type(_)) => first.meet(left),
        None => first.meet(left),
    }
}

/// The name in a type.
fn known_in(index: &Index, texpr: &TypeExpr, left: usize, first: &mut First)
    ensures { (s : Schema) → IsExactIndex s index.now → Finds first.old.found first.new.found (IsKnown s (plain_expr texpr.now)) }
{
    if let Some(name) = name_in(texpr) {
        known(index, name, left, first);
    }
}

/// The name that is all of a type.
pub(super) fn lone_name(texpr: &TypeExpr) -> Option<&Vec<u8>>
    ensures { option_map (λ n. n.now.items) result ≡ lone_name (plain_expr texpr.now) }
{
    match texpr {
        TypeExpr::Named(name) => Some(name),
        TypeExpr::Array { .. } => None,
        TypeExpr::List { .. } => None,
        TypeExpr::Set { .. } => None,
        TypeExpr::Bag { .. } => None,
        _ => None,
    }
}

/// A name that no entity declares.
fn no_entity(index: &Index, name: &[u8], left: usize, first: &mut First)
    ensures { (s : Schema) → IsExactIndex s index.now → Finds first.old.found first.new.found (¬ (IsEntity s name.now)) }
{
    match declared_by(index, name) {
        Some(Declared::Entity(_)) => first.meet(left),
        Some(Declared::Select(_)) => {}
        Some(Declared::Type(_)) => {}
        None => {}
    }
}

/// A name that no SELECT declares.
fn no_select(index: &Index, name: &[u8], left: usize, first: &mut First)
    ensures { (s : Schema) → IsExactIndex s index.now → Finds first.old.found first.new.found (¬ (IsSelect s name.now)) }
{
    match declared_by(index, name) {
        Some(Declared::Entity(_)) => {}
        Some(Declared::Select(_)) => first.meet(left),
        Some(Declared::Type(_)) => {}
        None => {}
    }
}

/// A type that is all that stands under a TYPE, and no entity.
fn plain(index: &Index, texpr: &TypeExpr, left: usize, first: &mut First)
    ensures { (s : Schema) → IsExactIndex s index.now → Finds first.old.found first.new.found (IsKnown s (plain_expr texpr.now) × IsNoEntityAlone s (plain_expr texpr.now)) }
{
    known_in(index, texpr, left, first);
    if let Some(name) = lone_name(texpr) {
        no_entity(index, name, left, first);
    }
}

/// A type that is all that stands under a TYPE, and no SELECT.
fn plain_select(index: &Index, texpr: &TypeExpr, left: usize, first: &mut First)
    ensures { (s : Schema) → IsExactIndex s index.now → Finds first.old.found first.new.found (IsNoSelectAlone s (plain_expr texpr.now)) }
{
    if let Some(name) = lone_name(texpr) {
        no_select(index, name, left, first);
    }
}

/// The supertypes of an entity.
fn supertypes(index: &Index, names: &[Vec<u8>], places: &[usize], first: &mut First)
    ensures { (s : Schema) → IsExactIndex s index.now → Finds first.old.found first.new.found (AllByRecursion (IsEntity s) (texts names.now)) }
{
    for (i, name) in names.iter().enumerate() {
        supertype(index, name, place_at(places, i), first);
    }
}

/// The types of attributes.
fn attributes(index: &Index, attributes: &[AttrDecl], places: &[AttrPlaces], first: &mut First)
    ensures { (s : Schema) → IsExactIndex s index.now → Finds first.old.found first.new.found (AllByRecursion (λ a. IsKnown s a.texpr) (map plain_attribute attributes.now)) }
{
    for (i, attribute) in attributes.iter().enumerate() {
        let place = attribute_places_at(places, i).texpr;
        known_in(index, &attribute.texpr, place, first);
    }
}

/// The items of a SELECT.
fn selected(index: &Index, names: &[Vec<u8>], places: &[usize], first: &mut First)
    ensures { (s : Schema) → IsExactIndex s index.now → Finds first.old.found first.new.found (AllByRecursion (λ n. IsEntity s n ⊎ IsType s n) (texts names.now)) }
{
    for (i, name) in names.iter().enumerate() {
        known(index, name, place_at(places, i), first);
    }
}

/// What stands under a TYPE.
fn under(index: &Index, under: &Under, places: &[usize], first: &mut First)
    ensures { (s : Schema) → IsExactIndex s index.now → Finds first.old.found first.new.found (AreKnownUnder s (plain_under under.now)) }
{
    match under {
        Under::Items(_) => {}
        Under::Select(names) => selected(index, names, places, first),
        Under::Plain(texpr) => plain(index, texpr, place_at(places, 0), first),
    }
}

/// What stands under a TYPE, where no SELECT stands alone.
fn select_under(index: &Index, under: &Under, places: &[usize], first: &mut First)
    ensures { (s : Schema) → IsExactIndex s index.now → Finds first.old.found first.new.found (IsNoLoneSelect s (plain_under under.now)) }
{
    match under {
        Under::Items(_) => {}
        Under::Select(_) => {}
        Under::Plain(texpr) => plain_select(index, texpr, place_at(places, 0), first),
    }
}

/// The names in the entities.
fn entities(checked: Checked, index: &Index, first: &mut First)
    ensures { let s = plain_schema checked.entry.declarations.now in IsExactIndex s index.now → Finds first.old.found first.new.found (AllByRecursion (HasKnownNames s) s.entities) }
{
    for (i, entity) in checked.declarations.entities.iter().enumerate() {
        let places = checked.entity_places(i);
        supertypes(index, &entity.supertypes, &places.supertypes, first);
        attributes(index, &entity.attributes, &places.attributes, first);
    }
}

/// The names in the types.
fn types(checked: Checked, index: &Index, first: &mut First)
    ensures { let s = plain_schema checked.entry.declarations.now in IsExactIndex s index.now → Finds first.old.found first.new.found (AllByRecursion (HasKnownUnder s) s.types) }
{
    for (i, decl) in checked.declarations.types.iter().enumerate() {
        under(index, &decl.under, &checked.type_places(i).under, first);
    }
}

/// The SELECTs that stand alone under types.
fn lone_selects(checked: Checked, index: &Index, first: &mut First)
    ensures { let s = plain_schema checked.entry.declarations.now in IsExactIndex s index.now → Finds first.old.found first.new.found (AllByRecursion (HasNoSelectUnder s) s.types) }
{
    for (i, decl) in checked.declarations.types.iter().enumerate() {
        select_under(index, &decl.under, &checked.type_places(i).under, first);
    }
}

/// Refuses where a name is unknown or a SELECT stands alone, for the one that comes first in the text.
fn first_refusal(unknown: First, selects: First) -> Result<(), Unfit>
    ensures { MatchResult result (λ _. (unknown.found ≡ None) × (selects.found ≡ None)) (λ e. OnUnfit e (OfNames (IsSome unknown.found) (IsSome selects.found))) }
{
    let Some(select) = selects.found else {
        return unknown.refusal(Misfit::UnknownName);
    };
    match unknown.found {
        Some(name) if name > select => unknown.refusal(Misfit::UnknownName),
        _ => selects.refusal(Misfit::LoneSelect),
    }
}

/// Refuses where a name is not declared as what it is used for.
pub(super) fn check(checked: Checked, index: &Index) -> Result<(), Unfit>
    requires { IsExactIndex (plain_schema checked.declarations.now) index.now }
    ensures { let s = plain_schema checked.entry.declarations.now in MatchResult result (λ _. HasNoUnknown s) (λ e. OnUnfit e (OfNames (¬ (AreNamesKnown s)) (¬ (HasNoLoneSelect s)))) }
{
    let mut unknown = First::new();
    entities(checked, index, &mut unknown);
    types(checked, index, &mut unknown);
    let mut selects = First::new();
    lone_selects(checked, index, &mut selects);
    first_refusal(unknown, selects)
}
