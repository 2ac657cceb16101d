//! Reference faults by example, among enough instances for several threads.

ghost use Rattle.std.specs.Prelude.{IsTrue};
ghost use Rattle.p21_join.specs.Model.{instances_of, plain_instances};
ghost use Rattle.p21_refs.specs.FirstReferenceFault.{AreSound};

use crate::{all_bad, all_bad_among, first_bad, first_bad_among};
use p21_check::check_local;
use p21_express::read_declarations;
use p21_join::{Joiner, Model, ModelEntities};
use p21_schema::{Rules, Schema};
use p21_tree::{Fault, FaultKind, Piece, read_piece};
use std::alloc::{AllocError, Global};
use std::test::Fail;
use std::thread::Threads;

const TOY: &[u8] =
    b"SCHEMA Toy; ENTITY Item; Id : STRING; Name : OPTIONAL STRING; Next : OPTIONAL Item; \
END_ENTITY; END_SCHEMA;";

/// How many instances there are.
const COUNT: u64 = 5000;

/// The table of a schema's text.
fn table(alloc: Global, text: &[u8]) -> Option<Schema> {
    let declarations = read_declarations(alloc, text).ok()?;
    Schema::build(alloc, declarations, Rules::default()).ok()
}

/// Instances, each of which refers to the next by its name, but for one, which refers to another or to none.
fn texts(alloc: Global, odd: u64, other: Option<u64>) -> Result<Vec<String>, AllocError> {
    let mut texts = Vec::new(alloc);
    for name in 1..=COUNT {
        let next = if name == odd { other } else { Some(name + 1) };
        texts.push(match next {
            Some(next) => format!(in alloc; "#{name}=ITEM('A001',$,#{next});")?,
            None => format!(in alloc; "#{name}=ITEM('A001',$,$);")?,
        })?;
    }
    Ok(texts)
}

/// The model of some instances, as if each lay a hundred bytes after the one before.
fn model_of<'a>(alloc: Global, texts: &'a [String]) -> Option<Model<'a>> {
    let mut joiner = Joiner::new(alloc);
    for (number, text) in texts.iter().enumerate() {
        let number = number as u64;
        let bytes = text.as_bytes();
        let at = number.checked_mul(100)?;
        let _end = at.checked_add(bytes.len() as u64)?;
        let piece = Piece { number, at, bytes };
        let instance = read_piece(alloc, piece).ok()?;
        joiner.add(instance).ok()?;
    }
    Some(joiner.into_model())
}

/// Whether no instance of a model has a fault by itself.
fn is_sound(schema: &Schema, model: &Model<'_>) -> bool
    ensures { IsTrue result → AreSound schema.now (plain_instances (instances_of model.now)) }
{
    for place in 0..model.len() {
        if check_local(schema, model.instance(place)).is_err() {
            return false;
        }
    }
    true
}

/// At most two faults.
type Two = [Option<Fault>; 2];

/// Some faults, if they are two at most.
fn two(faults: &[Fault]) -> Result<Two, Fail> {
    match faults {
        [] => Ok([None, None]),
        [one] => Ok([Some(*one), None]),
        [one, other] => Ok([Some(*one), Some(*other)]),
        _ => Err(Fail::from("more than two faults")),
    }
}

/// The first fault, as both calls find it.
fn first<R: Threads + Sync>(
    rt: &R,
    alloc: Global,
    schema: &Schema,
    model: &Model<'_>,
) -> Result<[Option<Fault>; 2], Fail>
    requires { AreSound schema.now (plain_instances (instances_of model.now)) }
{
    let entities = ModelEntities::new(alloc, schema, model)?;
    Ok([
        first_bad(rt, alloc, schema, model)?,
        first_bad_among(rt, &entities),
    ])
}

/// All faults, as both calls find them.
fn all<R: Threads + Sync>(
    rt: &R,
    alloc: Global,
    schema: &Schema,
    model: &Model<'_>,
) -> Result<[Two; 2], Fail>
    requires { AreSound schema.now (plain_instances (instances_of model.now)) }
{
    let entities = ModelEntities::new(alloc, schema, model)?;
    Ok([
        two(all_bad(rt, alloc, schema, model)?.as_slice())?,
        two(all_bad_among(rt, alloc, &entities)?.as_slice())?,
    ])
}

/// What all calls find.
fn found<R: Threads + Sync>(
    rt: &R,
    alloc: Global,
    schema: &Schema,
    model: &Model<'_>,
) -> Result<([Option<Fault>; 2], [Two; 2]), Fail> {
    if !is_sound(schema, model) {
        return Err(Fail::from("an instance has a fault by itself"));
    }
    Ok((
        first(rt, alloc, schema, model)?,
        all(rt, alloc, schema, model)?,
    ))
}

fn missing(name: u64, place: u64) -> Option<Fault> {
    Some(Fault {
        kind: FaultKind::MissingReference {
            rec: 0,
            attr: 2,
            name,
        },
        at: place.saturating_mul(100),
    })
}

#[test]
fn first_and_all_of_many(rt: HostRuntime) -> Result<(), Fail> {
    let alloc = rt.alloc();
    let toy = table(alloc, TOY).ok_or("the schema is read and built")?;
    let last = missing(5001, 4999);
    for (odd, other, want) in [
        (5000, Some(5001), [last, None]),
        (2500, Some(9000), [missing(9000, 2499), last]),
        (2, Some(9000), [missing(9000, 1), last]),
        (5000, None, [None, None]),
    ] {
        let texts = texts(alloc, odd, other)?;
        let model = model_of(alloc, texts.as_slice()).ok_or("instances of their own names")?;
        let answers = found(&rt, alloc, &toy, &model)?;
        assert_eq!(rt; answers, ([want[0]; 2], [want; 2]), "at {odd}");
    }
    Ok(())
}
