//! Names that are repeated.

ghost use Rattle.std.specs.Prelude.{◌≡◌, ℕ, List, [], ◌∷◌, ◌++◌, Option, IfOk, OnOk, MatchResult, option_map};
ghost use Rattle.p21_express.specs.declared.misfit.Misfit.TheVariants.{Repeated};
ghost use Rattle.std.specs.List.{AllByRecursion};
ghost use Rattle.p21_express.specs.Checks.{Finds, HasMet, HasNames};
ghost use Rattle.p21_express.specs.Misfit.{OnUnfit, Only};
ghost use Rattle.p21_express.specs.Naming.{texts};
ghost use Rattle.p21_express.specs.Plain.{plain_schema, plain_entity, plain_under};
ghost use Rattle.p21_express.specs.WellFormed.{AreDistinct, HasDistinctItems, HasNoRepeated, declared_names, new_names, with_new};

use super::{Checked, First, attribute_places_at, place_at};
use crate::declarations::{EntityDecl, Under};
use crate::misfit::{Misfit, Unfit};
use crate::places::EntityPlaces;
use std::alloc::{AllocError, Global};
use std::collections::BTreeMap;

/// Names that were met, and the last place of each.
#[derive(Drop)]
struct Met<'d> {
    places: BTreeMap<&'d [u8], usize>,
}

impl<'d> Met<'d> {
    fn new(alloc: Global) -> Met<'d>
        ensures { HasNames result.places [] }
    {
        Met {
            places: BTreeMap::new(alloc),
        }
    }

    /// One more name, which is repeated where it was met before: there the later place counts.
    fn meet(&mut self, name: &'d [u8], left: usize, first: &mut First) -> Result<(), AllocError>
        ensures { (before : Option ℕ) (ns : List (List ℕ)) → HasMet before first.old.found self.old.places ns → OnOk result (HasMet before first.new.found self.new.places (ns ++ name.now ∷ [])) }
    {
        let Some(other) = self.places.insert(name, left)? else {
            return Ok(());
        };
        first.meet(left.min(other));
        self.places.insert(name, left.max(other))?;
        Ok(())
    }

    /// One more name of an attribute, where no entity stands before it.
    fn meet_new(
        &mut self,
        of: &Option<Vec<u8>>,
        name: &'d [u8],
        left: usize,
        first: &mut First,
    ) -> Result<(), AllocError>
        ensures { (before : Option ℕ) (ns : List (List ℕ)) → HasMet before first.old.found self.old.places ns → OnOk result (HasMet before first.new.found self.new.places (ns ++ with_new (option_map (λ n. n.items) of.now) name.now [])) }
    {
        match of {
            Some(_) => Ok(()),
            None => self.meet(name, left, first),
        }
    }
}

/// Names of which none may be repeated.
fn list(
    alloc: Global,
    names: &[Vec<u8>],
    places: &[usize],
    first: &mut First,
) -> Result<(), AllocError>
    ensures { OnOk result (Finds first.old.found first.new.found (AreDistinct (texts names.now))) }
{
    let mut met = Met::new(alloc);
    for (i, name) in names.iter().enumerate() {
        met.meet(name, place_at(places, i), first)?;
    }
    Ok(())
}

/// The names that an entity newly declares.
fn attributes<'d>(
    alloc: Global,
    entity: &'d EntityDecl,
    places: &EntityPlaces,
    first: &mut First,
) -> Result<Met<'d>, AllocError>
    ensures { IfOk result (λ met. HasMet first.old.found first.new.found met.places (new_names (plain_entity entity.now))) }
{
    let mut met = Met::new(alloc);
    for (i, attribute) in entity.attributes.iter().enumerate() {
        let place = attribute_places_at(&places.attributes, i).name;
        met.meet_new(&attribute.of, &attribute.name, place, first)?;
    }
    for (i, derived) in entity.derived.iter().enumerate() {
        let place = place_at(&places.derived, i);
        met.meet_new(&derived.of, &derived.name, place, first)?;
    }
    Ok(met)
}

/// The names of entities and types.
fn declared(alloc: Global, checked: Checked, first: &mut First) -> Result<(), AllocError>
    ensures { OnOk result (Finds first.old.found first.new.found (AreDistinct (declared_names (plain_schema checked.entry.declarations.now)))) }
{
    let mut met = Met::new(alloc);
    for (i, entity) in checked.declarations.entities.iter().enumerate() {
        met.meet(&entity.name, checked.entity_places(i).name, first)?;
    }
    for (i, decl) in checked.declarations.types.iter().enumerate() {
        met.meet(&decl.name, checked.type_places(i).name, first)?;
    }
    Ok(())
}

/// The names in the entities.
fn entities(alloc: Global, checked: Checked, first: &mut First) -> Result<(), AllocError>
    ensures { OnOk result (Finds first.old.found first.new.found (AllByRecursion (λ e. AreDistinct e.supertypes × AreDistinct (new_names e)) (plain_schema checked.entry.declarations.now).entities)) }
{
    for (i, entity) in checked.declarations.entities.iter().enumerate() {
        let places = checked.entity_places(i);
        list(alloc, &entity.supertypes, &places.supertypes, first)?;
        let _met = attributes(alloc, entity, places, first)?;
    }
    Ok(())
}

/// The items of an ENUMERATION.
fn items(
    alloc: Global,
    under: &Under,
    places: &[usize],
    first: &mut First,
) -> Result<(), AllocError>
    ensures { OnOk result (Finds first.old.found first.new.found (HasDistinctItems (plain_under under.now))) }
{
    match under {
        Under::Items(items) => list(alloc, items, places, first),
        _ => Ok(()),
    }
}

/// The items of the types.
fn types(alloc: Global, checked: Checked, first: &mut First) -> Result<(), AllocError>
    ensures { OnOk result (Finds first.old.found first.new.found (AllByRecursion (λ t. HasDistinctItems t.under) (plain_schema checked.entry.declarations.now).types)) }
{
    for (i, decl) in checked.declarations.types.iter().enumerate() {
        items(alloc, &decl.under, &checked.type_places(i).under, first)?;
    }
    Ok(())
}

/// Refuses where a name is repeated.
pub(super) fn check(alloc: Global, checked: Checked) -> Result<(), Unfit>
    ensures { let s = plain_schema checked.entry.declarations.now in MatchResult result (λ _. HasNoRepeated s) (λ e. OnUnfit e (Only Repeated (¬ (HasNoRepeated s)))) }
{
    let mut first = First::new();
    declared(alloc, checked, &mut first)?;
    entities(alloc, checked, &mut first)?;
    types(alloc, checked, &mut first)?;
    first.refusal(Misfit::Repeated)
}
