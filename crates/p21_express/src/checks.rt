//! Whether declarations fit together. Each check goes over the whole text, and tells the first place.

ghost use Rattle.std.specs.Prelude.{◌≡◌, IsSome, MatchResult};
ghost use Rattle.p21_express.specs.Misfit.{OnUnfit, Only, IsMisfit};
ghost use Rattle.p21_express.specs.Plain.{plain_schema};
ghost use Rattle.p21_express.specs.WellFormed.{IsWellFormed};

mod cycles;
mod graph;
mod names;
mod owners;
mod redeclared;
mod repeated;
mod unknown;

use crate::declarations::Declarations;
use crate::misfit::{Misfit, Unfit};
use crate::places::{AttrPlaces, EntityPlaces, TypePlaces};
use std::alloc::Global;

/// What is looked at: declarations, and where their names stand.
#[derive(Clone, Copy)]
struct Checked<'d> {
    declarations: &'d Declarations,
    entity_places: &'d [EntityPlaces],
    type_places: &'d [TypePlaces],
    /// What stands for the places of an entity that has none.
    no_entity: &'d EntityPlaces,
    /// What stands for the places of a type that has none.
    no_type: &'d TypePlaces,
}

impl<'d> Checked<'d> {
    /// Where the names of the entity at this position stand.
    fn entity_places(self, position: usize) -> &'d EntityPlaces {
        match self.entity_places.get(position) {
            Some(places) => places,
            None => self.no_entity,
        }
    }

    /// Where the names of the type at this position stand.
    fn type_places(self, position: usize) -> &'d TypePlaces {
        match self.type_places.get(position) {
            Some(places) => places,
            None => self.no_type,
        }
    }
}

/// The first place in the text where something is wrong, among those that were met.
#[derive(Clone, Copy)]
struct First {
    /// How many words stand from there on.
    found: Option<usize>,
}

impl First {
    fn new() -> First
        ensures { result.found ≡ None }
    {
        First { found: None }
    }

    /// Something is wrong where so many words are left.
    fn meet(&mut self, left: usize)
        ensures { IsSome self.new.found }
    {
        let is_first = match self.found {
            Some(other) => left > other,
            None => true,
        };
        if is_first {
            self.found = Some(left);
        }
    }

    /// Refuses where something was met, and says what it is.
    fn refusal(self, misfit: Misfit) -> Result<(), Unfit>
        ensures { MatchResult result (λ _. self.found ≡ None) (λ e. OnUnfit e (Only misfit (IsSome self.found))) }
    {
        match self.found {
            Some(left) => Err(Unfit::Found(misfit, left)),
            None => Ok(()),
        }
    }
}

/// The place of a name; a name without a place has none.
fn place_at(places: &[usize], index: usize) -> usize {
    match places.get(index) {
        Some(place) => *place,
        None => 0,
    }
}

/// The places of an attribute.
fn attribute_places_at(places: &[AttrPlaces], index: usize) -> AttrPlaces {
    match places.get(index) {
        Some(places) => *places,
        None => AttrPlaces { name: 0, texpr: 0 },
    }
}

/// Whether the declarations fit together, by one check after the other.
pub(crate) fn check<'d>(
    alloc: Global,
    declarations: &'d Declarations,
    entity_places: &'d [EntityPlaces],
    type_places: &'d [TypePlaces],
) -> Result<(), Unfit>
    ensures { let s = plain_schema declarations.now in MatchResult result (λ _. IsWellFormed s) (λ e. OnUnfit e (IsMisfit s)) }
{
    let no_entity = EntityPlaces::nowhere(alloc);
    let no_type = TypePlaces::nowhere(alloc);
    let checked = Checked {
        declarations,
        entity_places,
        type_places,
        no_entity: &no_entity,
        no_type: &no_type,
    };
    repeated::check(alloc, checked)?;
    let index = names::index(alloc, declarations)?;
    unknown::check(checked, &index)?;
    cycles::check(alloc, checked, &index)?;
    redeclared::check(alloc, checked, &index)
}
