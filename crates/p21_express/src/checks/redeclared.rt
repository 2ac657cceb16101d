//! Attributes that are declared again.

ghost use Rattle.std.specs.Prelude.{◌≡◌, ◌<◌, ℕ, List, [], ◌∷◌, ◌++◌, Some, slice_get, length, IfOk, IsFalse, MatchOption, MatchResult, true, map, option_map};
ghost use Rattle.std.specs.Option.{option_to_list};
ghost use Rattle.std.specs.Bool.{MatchBool};
ghost use Rattle.std.specs.List.{AllByRecursion};
ghost use Rattle.p21_express.specs.Again.{plain_again, origin_in, HasOrigins, IsDerivedAt, IsAgainAt};
ghost use Rattle.p21_express.specs.Index.{IsExactIndex, IsEntityAt};
ghost use Rattle.p21_express.specs.Misfit.{OnUnfit, Only};
ghost use Rattle.p21_express.specs.Owners.{IsAncestry};
ghost use Rattle.p21_express.specs.Plain.{plain_schema, plain_entity};
ghost use Rattle.p21_express.specs.Schema.{Schema};
ghost use Rattle.p21_express.specs.WellFormed.{IsIn, AreDistinct, HasNoUnknown, HasNoCycles, IsRedeclaring, Origin, declared_names, with_again, redeclarations};
ghost use Rattle.p21_express.specs.declared.misfit.Misfit.TheVariants.{BadRedeclaration};

use super::cycles::{add, entity_at};
use super::names::Index;
use super::owners::{ancestry, derives, only_owner};
use super::{Checked, attribute_places_at, place_at};
use crate::declarations::{Declarations, EntityDecl};
use crate::misfit::{Misfit, Unfit};
use crate::places::EntityPlaces;
use p21_graph::Bits;
use std::alloc::{AllocError, Global};
use std::collections::BTreeMap;

/// SELF\of.name, its place, and whether it is explicit.
#[derive(Clone, Copy)]
struct Again<'d> {
    of: &'d [u8],
    name: &'d [u8],
    explicit: bool,
    place: usize,
}

/// What the checks of all entities look at.
#[derive(Drop)]
struct Known<'d> {
    declarations: &'d Declarations,
    /// For each entity itself and its ancestors.
    ancestry: Bits,
}

/// Whether an attribute of the entity at a position may be declared again: explicitly none of DERIVE.
fn is_allowed(declarations: &Declarations, position: usize, again: Again) -> bool
    requires { position < length (plain_schema declarations.now).entities }
    ensures { let r = plain_again again.entry in MatchBool result (r.explicit ≡ true → ¬ (IsDerivedAt (plain_schema declarations.now) r.name position)) (¬ (r.explicit ≡ true → ¬ (IsDerivedAt (plain_schema declarations.now) r.name position))) }
{
    if again.explicit {
        return !derives(&declarations.entities[position], again.name);
    }
    true
}

/// The position of the entity that newly declares what another declares again, which is at this position, where that is allowed.
fn origin_of(known: &Known, index: &Index, position: usize, again: Again) -> Option<usize>
    requires index { IsExactIndex (plain_schema known.now.declarations.now) index.now }
    requires unknown { HasNoUnknown (plain_schema known.now.declarations.now) }
    requires cycles { HasNoCycles (plain_schema known.now.declarations.now) }
    requires ancestry { IsAncestry (plain_schema known.now.declarations.now) known.now.ancestry }
    requires position { position < length (plain_schema known.now.declarations.now).entities }
    ensures { let s = plain_schema known.now.declarations.now in (e : List ℕ) → IsEntityAt s position e → MatchOption result ((i : ℕ) → ¬ (IsAgainAt s e (plain_again again.entry) i)) (λ i. IsAgainAt s e (plain_again again.entry) i) }
{
    let of = entity_at(index, again.of)?;
    if of == position {
        return None;
    }
    if !known.ancestry.has(position, of) {
        return None;
    }
    let owner = only_owner(known.declarations, &known.ancestry, of, again.name)?;
    if is_allowed(known.declarations, owner, again) {
        Some(owner)
    } else {
        None
    }
}

/// What an attribute declares again, if it does.
fn again_of<'d>(
    of: &'d Option<Vec<u8>>,
    name: &'d [u8],
    explicit: bool,
    place: usize,
) -> Option<Again<'d>>
    ensures { map plain_again (option_to_list result) ≡ with_again (option_map (λ n. n.items) of.now) name.now explicit [] }
{
    let Some(of) = of else {
        return None;
    };
    Some(Again {
        of,
        name,
        explicit,
        place,
    })
}

/// What an entity declares again, in the order of the text.
fn all_again<'d>(
    alloc: Global,
    entity: &'d EntityDecl,
    places: &EntityPlaces,
) -> Result<Vec<Again<'d>>, AllocError>
    ensures { IfOk result (λ all. map plain_again all.items ≡ redeclarations (plain_entity entity.now)) }
{
    let mut all = Vec::new(alloc);
    for (i, attribute) in entity.attributes.iter().enumerate() {
        let place = attribute_places_at(&places.attributes, i).name;
        add(
            &mut all,
            again_of(&attribute.of, &attribute.name, true, place),
        )?;
    }
    for (i, derived) in entity.derived.iter().enumerate() {
        let place = place_at(&places.derived, i);
        add(&mut all, again_of(&derived.of, &derived.name, false, place))?;
    }
    Ok(all)
}

/// Whether an entity declares an attribute again.
fn declares_again(entity: &EntityDecl) -> bool
    ensures { IsFalse result → redeclarations (plain_entity entity.now) ≡ [] }
{
    for attribute in &entity.attributes {
        if attribute.of.is_some() {
            return true;
        }
    }
    for derived in &entity.derived {
        if derived.of.is_some() {
            return true;
        }
    }
    false
}

/// Whether some entity declares an attribute again.
fn any_declares_again(declarations: &Declarations) -> bool
    ensures { let s = plain_schema declarations.now in IsFalse result → AllByRecursion (IsRedeclaring s) s.entities }
{
    for entity in &declarations.entities {
        if declares_again(entity) {
            return true;
        }
    }
    false
}

/// The attributes that were declared again, each by the position of the entity that newly declares it and by its name.
type Origins<'d> = BTreeMap<(usize, &'d [u8]), bool>;

/// One more attribute that is declared again, which the entity at this position newly declares; whether it was before.
fn meet<'d>(origins: &mut Origins<'d>, position: usize, name: &'d [u8]) -> Result<bool, AllocError>
    ensures { (s : Schema) (os : List Origin) (e : List ℕ) → AreDistinct (declared_names s) → IsEntityAt s position e → HasOrigins s origins.old os → IfOk result (λ again. MatchBool again (IsIn os (origin_in e name.now)) (¬ (IsIn os (origin_in e name.now)) × HasOrigins s origins.new (os ++ origin_in e name.now ∷ []))) }
{
    let before = origins.insert((position, name), true)?;
    Ok(before.is_some())
}

/// Refuses where an entity may not declare again what it does.
fn entity(
    alloc: Global,
    known: &Known,
    index: &Index,
    position: usize,
    decl: &EntityDecl,
    places: &EntityPlaces,
) -> Result<(), Unfit>
    requires index { IsExactIndex (plain_schema known.now.declarations.now) index.now }
    requires unknown { HasNoUnknown (plain_schema known.now.declarations.now) }
    requires cycles { HasNoCycles (plain_schema known.now.declarations.now) }
    requires ancestry { IsAncestry (plain_schema known.now.declarations.now) known.now.ancestry }
    requires decl { slice_get (plain_schema known.now.declarations.now).entities position ≡ Some (plain_entity decl.now) }
    ensures { let s = plain_schema known.now.declarations.now in MatchResult result (λ _. IsRedeclaring s (plain_entity decl.now)) (λ e. OnUnfit e (Only BadRedeclaration (¬ (IsRedeclaring s (plain_entity decl.now))))) }
{
    let all = all_again(alloc, decl, places)?;
    if all.is_empty() {
        return Ok(());
    }
    let mut origins = BTreeMap::new(alloc);
    for again in &all {
        let refusal = Unfit::Found(Misfit::BadRedeclaration, again.place);
        let Some(origin) = origin_of(known, index, position, *again) else {
            return Err(refusal);
        };
        let is_again = meet(&mut origins, origin, again.name)?;
        if is_again {
            return Err(refusal);
        }
    }
    Ok(())
}

/// Refuses where an attribute may not be declared again. The entities stand in the order of the text, and so does what
/// each declares again: the first that is met is the first in the text.
pub(super) fn check(alloc: Global, checked: Checked, index: &Index) -> Result<(), Unfit>
    requires index { IsExactIndex (plain_schema checked.declarations.now) index.now }
    requires unknown { HasNoUnknown (plain_schema checked.declarations.now) }
    requires cycles { HasNoCycles (plain_schema checked.declarations.now) }
    ensures { let s = plain_schema checked.entry.declarations.now in MatchResult result (λ _. AllByRecursion (IsRedeclaring s) s.entities) (λ e. OnUnfit e (Only BadRedeclaration (¬ (AllByRecursion (IsRedeclaring s) s.entities)))) }
{
    let declarations = checked.declarations;
    if !any_declares_again(declarations) {
        return Ok(());
    }
    let known = Known {
        declarations,
        ancestry: ancestry(alloc, checked, index)?,
    };
    for (position, decl) in declarations.entities.iter().enumerate() {
        let places = checked.entity_places(position);
        entity(alloc, &known, index, position, decl, places)?;
    }
    Ok(())
}
