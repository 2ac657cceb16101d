//! Joining by example.

ghost use Rattle.std.specs.Prelude.{◌≡◌};
ghost use Rattle.p21_join.specs.Entities.{model_of};

use crate::tables::table;
use p21_check::{EntityOf, Named};
use p21_hash::HashKey;
use p21_join::{InstanceNames, JoinError, Joiner, Model, ModelEntities};
use p21_schema::EntityId;
use p21_tree::{Piece, RawInstance, TreeError, read_piece};
use std::alloc::Global;
use std::process::Abort;
use std::test::Fail;

fn instance_of(alloc: Global, text: &[u8]) -> Result<RawInstance<'_>, TreeError> {
    read_piece(
        alloc,
        Piece {
            number: 0,
            at: 0,
            bytes: text,
        },
    )
}

/// What `add` answers to an instance.
#[derive(Clone, Copy, Debug, PartialEq, Eq)]
enum Answer {
    Joined,
    Duplicate(u64),
    Memory,
}

fn add<'a>(joiner: &mut Joiner<'a>, instance: RawInstance<'a>) -> Answer {
    match joiner.add(instance) {
        Ok(()) => Answer::Joined,
        Err(JoinError::Duplicate(back)) => Answer::Duplicate(back.name),
        Err(JoinError::Memory(_)) => Answer::Memory,
    }
}

/// The text of an instance, and what `add` answers to it.
type Row = (&'static [u8], Answer);

/// The model of some instances, each of which is answered as its row says.
fn model_of_rows(rt: &impl Abort, alloc: Global, rows: &[Row]) -> Result<Model<'static>, Fail> {
    joined_rows(rt, alloc, Joiner::new(alloc), rows)
}

/// The model of what was joined and of some more instances, each of which is answered as its row says.
fn joined_rows(
    rt: &impl Abort,
    alloc: Global,
    mut joiner: Joiner<'static>,
    rows: &[Row],
) -> Result<Model<'static>, Fail> {
    for (text, want) in rows {
        let instance = instance_of(alloc, text)?;
        assert_eq!(rt; add(&mut joiner, instance), *want, "{text:?}");
    }
    Ok(joiner.into_model())
}

fn check_names(rt: &impl Abort, model: &Model<'_>) {
    assert_eq!(rt; model.len(), 2);
    assert!(rt; !model.is_empty());
    assert_eq!(rt; model.instances().len(), 2);
    assert_eq!(rt; model.instance(0).name, 7);
    assert_eq!(rt; model.instance(1).name, 3);
    assert_eq!(rt; model.find(7).map(|instance| instance.name), Some(7));
    assert_eq!(rt; model.find(3).map(|instance| instance.name), Some(3));
    assert!(rt; model.find(8).is_none());
    assert_eq!(rt; model.position(3), Some(1));
    assert_eq!(rt; model.position(8), None);
}

#[test]
fn joins_each_name_once(rt: HostRuntime) -> Result<(), Fail> {
    let rows: [Row; 3] = [
        (b"#7=MARK('a');", Answer::Joined),
        (b"#3=MARK('b');", Answer::Joined),
        (b"#007=MARK('c');", Answer::Duplicate(7)),
    ];
    let model = model_of_rows(&rt, rt.alloc(), &rows)?;
    check_names(&rt, &model);
    Ok(())
}

#[test]
fn joins_each_name_once_by_any_key(rt: HostRuntime) -> Result<(), Fail> {
    let alloc = rt.alloc();
    let rows: [Row; 5] = [
        (b"#18446744073709551615=MARK('a');", Answer::Joined),
        (b"#7=MARK('b');", Answer::Joined),
        (b"#67108871=MARK('c');", Answer::Joined),
        (b"#134217735=MARK('d');", Answer::Joined),
        (b"#67108871=MARK('e');", Answer::Duplicate(67_108_871)),
    ];
    for seed in [0, 1, u64::MAX] {
        let joiner = Joiner::with_key(alloc, HashKey::new(seed));
        let model = joined_rows(&rt, alloc, joiner, &rows)?;
        assert_eq!(rt; model.position(134_217_735), Some(3), "by {seed}");
        assert_eq!(rt; model.position(8), None, "by {seed}");
    }
    Ok(())
}

#[test]
fn keeps_the_names_of_what_was_joined(rt: HostRuntime) -> Result<(), Fail> {
    let alloc = rt.alloc();
    let mut joiner = Joiner::new(alloc);
    for text in [b"#7=MARK('a');", b"#3=MARK('b');"] {
        let instance = instance_of(alloc, text)?;
        assert_eq!(rt; add(&mut joiner, instance), Answer::Joined);
    }
    let mut names = InstanceNames::of(joiner);
    let rows = [
        (7, false),
        (8, true),
        (3, false),
        (8, false),
        (1 << 40, true),
        (1 << 40, false),
    ];
    for (name, is_new) in rows {
        assert_eq!(rt; names.add(name)?, is_new, "of {name}");
    }
    Ok(())
}

/// What is known of the instance of a name.
#[derive(Clone, Copy, Debug, PartialEq, Eq)]
enum Known {
    Missing,
    Simple(EntityId),
    Other(u64),
}

fn answer_of<'m, 'a: 'm, M: EntityOf<'a>>(among: &'m M, name: u64) -> Known {
    match among.entity_of(name) {
        Named::Missing => Known::Missing,
        Named::Simple(entity) => Known::Simple(entity),
        Named::Other(instance) => Known::Other(instance.name),
    }
}

/// The entity of the instance at a place of the model that these are of.
fn entity_at(entities: &ModelEntities<'_, '_>, model: &Model<'_>, place: usize) -> Option<EntityId>
    requires { model_of entities.now ≡ model.now }
{
    if place < model.len() {
        entities.entity(place)
    } else {
        None
    }
}

/// Of the model whose instances `#70` and `#4` are simple ones of these entities.
fn check_entities(
    rt: &impl Abort,
    entities: &ModelEntities<'_, '_>,
    model: &Model<'_>,
    mark: EntityId,
    item: EntityId,
)
    requires { model_of entities.now ≡ model.now }
{
    assert_eq!(rt; answer_of(entities, 70), Known::Simple(mark));
    assert_eq!(rt; answer_of(entities, 3), Known::Other(3));
    assert_eq!(rt; answer_of(entities, 1000), Known::Other(1000));
    assert_eq!(rt; answer_of(entities, 4), Known::Simple(item));
    assert_eq!(rt; answer_of(entities, 5), Known::Missing);
    let own = [Some(mark), None, None, Some(item)];
    for (place, expected) in own.into_iter().enumerate() {
        assert_eq!(rt; entity_at(entities, model, place), expected, "at {place}");
    }
}

#[test]
fn knows_the_entities_of_simple_instances(rt: HostRuntime) -> Result<(), Fail> {
    let alloc = rt.alloc();
    let text = b"SCHEMA Toy; ENTITY Item; END_ENTITY; ENTITY Mark; END_ENTITY; END_SCHEMA;";
    let schema = table(alloc, text).ok_or("a schema")?;
    let item = schema.entity(b"ITEM").ok_or("an entity")?;
    let mark = schema.entity(b"MARK").ok_or("an entity")?;
    let rows: [Row; 4] = [
        (b"#70=MARK();", Answer::Joined),
        (b"#3=(ITEM()MARK());", Answer::Joined),
        (b"#1000=NONE();", Answer::Joined),
        (b"#4=ITEM();", Answer::Joined),
    ];
    let model = model_of_rows(&rt, alloc, &rows)?;
    let entities = ModelEntities::new(alloc, &schema, &model)?;
    check_entities(&rt, &entities, &model, mark, item);
    Ok(())
}
