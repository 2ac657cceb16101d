//! Reading a file from its first byte to its last, on one thread.

ghost use Rattle.std.specs.Prelude.{◌≡◌, [], IfOk, OnOk, IfErr};
ghost use Rattle.p21_check.specs.EntityOf.{AreSimpleEntities};
ghost use Rattle.p21_join.specs.Model.{instances_of, plain_instances};
ghost use Rattle.p21_reader.specs.Answer.{plain_answer};
ghost use Rattle.p21_reader.specs.InstanceFault.{HaveNoFault};
ghost use Rattle.p21_refs.specs.FirstReferenceFault.{AreAnswered, IsFirstReferenceFault};
ghost use Rattle.p21_reader.specs.Reading.{IsReading};
ghost use Rattle.p21_reader.specs.Steps.{OnFault};

use crate::preface::local_model;
use crate::reading::{ReadError, Reading};
use crate::stop::Stop;
use p21_check::check_references_among;
use p21_join::{Model, ModelEntities};
use p21_schema::{EntityId, Schema};
use p21_tree::Fault;
use std::alloc::Global;

/// Reads a whole file against a schema.
///
/// The answer is the first fault of the file, or its instances in their order. The faults stand in this order: a grammar
/// fault up to and including `DATA;`; a fault of the header entities, then of the schema's name; of the instances that stand
/// whole before the first grammar fault, the fault of the first that has one; the first grammar fault; the first reference
/// fault. There are no receipts, and nothing is dealt. An error is lack of memory.
pub fn read_serial<'a>(
    alloc: Global,
    schema: &Schema,
    file: &'a [u8],
) -> Result<Reading<'a>, ReadError>
    // The reading of the whole file against the schema.
    ensures answer { IfOk result (λ reading. IsReading schema.now file.now (plain_answer reading.answer)) }
    // Nothing was dealt, and there is no receipt.
    ensures lanes { IfOk result (λ reading. (reading.receipts.items ≡ []) × (reading.dealt.items ≡ []) × (reading.returned.items ≡ [])) }
{
    match checked_model(alloc, schema, file) {
        Ok(model) => Ok(Reading::without_lanes(alloc, Ok(model))),
        Err(Stop::Fault(fault)) => Ok(Reading::without_lanes(alloc, Err(fault))),
        Err(Stop::Memory) => Err(ReadError::Memory),
    }
}

/// The instances of a file that has no fault; else its first fault.
fn checked_model<'a>(alloc: Global, schema: &Schema, file: &'a [u8]) -> Result<Model<'a>, Stop>
    ensures ok { IfOk result (λ model. IsReading schema.now file.now (Ok (plain_instances (instances_of model)))) }
    ensures fault { IfErr result (λ stop. OnFault stop (λ fault. IsReading schema.now file.now (Err fault))) }
{
    let (model, entities) = local_model(alloc, schema, file)?;
    match references(schema, &model, entities) {
        Ok(()) => Ok(model),
        Err(fault) => Err(Stop::Fault(fault)),
    }
}

/// The first reference fault of the instances of a model, none of which has a fault by itself, by the entity of each.
fn references(
    schema: &Schema,
    model: &Model<'_>,
    entities: Vec<Option<EntityId>>,
) -> Result<(), Fault>
    requires faultless { HaveNoFault schema.now (plain_instances (instances_of model.now)) }
    requires entities { AreSimpleEntities schema.now (plain_instances (instances_of model.now)) entities.items }
    ensures ok { OnOk result (AreAnswered schema.now (plain_instances (instances_of model.now)) (plain_instances (instances_of model.now))) }
    ensures fault { IfErr result (λ fault. IsFirstReferenceFault schema.now (plain_instances (instances_of model.now)) fault) }
{
    let entities = ModelEntities::of(schema, model, entities);
    for (place, instance) in model.instances().iter().enumerate() {
        let own = entities.entity(place);
        if let Err(kind) = check_references_among(schema, own, instance, &entities) {
            return Err(Fault {
                kind,
                at: instance.at,
            });
        }
    }
    Ok(())
}
