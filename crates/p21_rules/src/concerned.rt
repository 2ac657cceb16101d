//! Which rules concern an instance, by the entities that its records name.

ghost use Rattle.std.specs.Prelude.{◌≡◌, ℕ, List, All, IfOk, OnOk, length};
ghost use Rattle.p21_check.specs.EntityOf.{IsSimpleEntity};
ghost use Rattle.p21_schema.specs.Place.{IsEntityOf};
ghost use Rattle.p21_tree.specs.Views.{plain_instance};
ghost use Rattle.p21_rules.specs.Concerned.{AreConcerned, AreConcernsOf, IsSubject, IsTable};
ghost use Rattle.p21_rules.specs.Named.{AreNamed};

use crate::entities::{is_of, name_entities};
use p21_schema::{EntityId, Schema};
use p21_tree::RawInstance;
use std::alloc::{AllocError, Global};
use std::slice;

/// Which rules concern the instances of each entity.
#[derive(Drop)]
pub(crate) struct Concerns {
    /// The entity of each rule.
    wanted: Vec<EntityId>,
    /// For each entity of the schema the numbers of the rules whose entity is this one or an ancestor of it, in their order.
    numbers: Vec<Vec<usize>>,
}

/// What the rules have to know of an instance.
#[derive(Clone, Copy)]
pub(crate) struct Subject<'t> {
    /// The entity that each of its records names.
    pub(crate) named: &'t [Option<EntityId>],
    /// The numbers of the rules that concern it, in their order.
    pub(crate) numbers: &'t [usize],
}

/// Room for what is asked of an instance that has no entity of its own.
#[derive(Drop)]
pub(crate) struct Room {
    named: Vec<Option<EntityId>>,
    numbers: Vec<usize>,
}

/// Room for any instance.
pub(crate) fn empty_room(alloc: Global) -> Room {
    Room {
        named: Vec::new(alloc),
        numbers: Vec::new(alloc),
    }
}

/// Which rules concern the instances of each entity, by the entity of each rule. Memory alone can fail.
pub(crate) fn concerns_of(
    alloc: Global,
    schema: &Schema,
    wanted: Vec<EntityId>,
) -> Result<Concerns, AllocError>
    requires { All (IsEntityOf schema.now) wanted.items }
    ensures wanted { IfOk result (λ concerns. concerns.wanted.items ≡ wanted.items) }
    ensures concerns { IfOk result (AreConcernsOf schema.now) }
{
    let numbers = table_of(alloc, schema, &wanted)?;
    Ok(Concerns { wanted, numbers })
}

/// For each entity of the schema the numbers of the rules of these entities that concern its instances.
fn table_of(
    alloc: Global,
    schema: &Schema,
    wanted: &[EntityId],
) -> Result<Vec<Vec<usize>>, AllocError>
    requires { All (IsEntityOf schema.now) wanted.now }
    ensures { IfOk result (λ table. IsTable schema.now wanted.now table.items) }
{
    let mut table = Vec::new(alloc);
    for place in 0..entity_count(schema) {
        let own = schema.entity_at(place);
        let mut numbers = Vec::new(alloc);
        number_rules(schema, wanted, slice::from_ref(&own), &mut numbers)?;
        table.push(numbers)?;
    }
    Ok(table)
}

/// How many entities the schema has.
fn entity_count(schema: &Schema) -> usize
    ensures { result ≡ length schema.now.entities }
{
    schema.declared().entities.len()
}

/// The numbers of the rules of these entities that concern an instance whose records name those, in place of the numbers that are there.
fn number_rules(
    schema: &Schema,
    wanted: &[EntityId],
    named: &[Option<EntityId>],
    numbers: &mut Vec<usize>,
) -> Result<(), AllocError>
    requires wanted { All (IsEntityOf schema.now) wanted.now }
    requires named { (ks : List (List ℕ)) × AreNamed schema.now ks named.now }
    ensures { (ks : List (List ℕ)) → AreNamed schema.now ks named.now → OnOk result (AreConcerned schema.now ks 0 wanted.now numbers.new.items) }
{
    numbers.clear();
    for number in 0..wanted.len() {
        if is_of(schema, named, wanted[number]) {
            numbers.push(number)?;
        }
    }
    Ok(())
}

/// What the rules have to know of an instance of which this is the entity: `None` where it is complex or its keyword names no entity.
/// Memory alone can fail.
pub(crate) fn subject_of<'t>(
    schema: &Schema,
    concerns: &'t Concerns,
    own: &'t Option<EntityId>,
    instance: &RawInstance<'_>,
    room: &'t mut Room,
) -> Result<Subject<'t>, AllocError>
    requires concerns { AreConcernsOf schema.now concerns.now }
    requires own { IsSimpleEntity schema.now (plain_instance instance.now) own.now }
    ensures { IfOk result (IsSubject schema.now concerns.now.wanted.items (plain_instance instance.now)) }
{
    match own {
        Some(entity) => Ok(Subject {
            named: slice::from_ref(own),
            numbers: &concerns.numbers[entity.place()],
        }),
        None => {
            name_entities(schema, instance.records.as_slice(), &mut room.named)?;
            number_rules(schema, &concerns.wanted, &room.named, &mut room.numbers)?;
            Ok(Subject {
                named: &room.named,
                numbers: &room.numbers,
            })
        }
    }
}
