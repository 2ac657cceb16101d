//! The faults of a model by the rules of its schema, in their order.

ghost use Rattle.std.specs.Prelude.{◌≡◌, IfOk};
ghost use Rattle.p21_join.specs.Model.{instances_of, plain_instances};
ghost use Rattle.p21_rule_run.specs.RuleFault.{both, place_of, AreRuleFaults, AreRulesIn, AreSorted};

use p21_join::{Model, ModelEntities};
use p21_rule_text::Rules;
use p21_rules::{InverseCount, NotUnique, all_inverse_counts, all_not_unique};
use p21_schema::Schema;
use std::alloc::{AllocError, Global};

/// A fault of an instance by a rule of its schema.
#[derive(Clone, Copy, Debug, PartialEq, Eq)]
pub enum RuleFault {
    NotUnique(NotUnique),
    InverseCount(InverseCount),
}

/// The faults of the instances of a model by rules: in the order of their places, and of one place those of UNIQUE first, each kind in the
/// order of its rules. Memory alone can fail.
pub(crate) fn rule_faults(
    alloc: Global,
    schema: &Schema,
    rules: &Rules,
    model: &Model<'_>,
) -> Result<Vec<RuleFault>, AllocError>
    requires { AreRulesIn schema.now rules.now }
    ensures { IfOk result (λ all. AreRuleFaults schema.now rules.now (plain_instances (instances_of model.now)) all.items) }
{
    let instances = model.instances();
    let known = ModelEntities::new(alloc, schema, model)?;
    let entities = known.entities();
    let unique = all_not_unique(alloc, schema, &rules.unique, instances, entities)?;
    let inverse = all_inverse_counts(alloc, schema, &rules.inverse, instances, entities)?;
    sorted(alloc, &unique, &inverse)
}

/// Faults of both kinds, by their places.
fn sorted(
    alloc: Global,
    unique: &[NotUnique],
    inverse: &[InverseCount],
) -> Result<Vec<RuleFault>, AllocError>
    ensures { IfOk result (λ all. AreSorted unique.now inverse.now all.items) }
{
    let mut all = both(alloc, unique, inverse)?;
    all.sort_by_key(|fault: &RuleFault| place_of(fault))?;
    Ok(all)
}

/// Faults of both kinds, those of UNIQUE in front.
fn both(
    alloc: Global,
    unique: &[NotUnique],
    inverse: &[InverseCount],
) -> Result<Vec<RuleFault>, AllocError>
    ensures { IfOk result (λ all. all.items ≡ both unique.now inverse.now) }
{
    let mut all = Vec::new(alloc);
    for fault in unique {
        all.push(RuleFault::NotUnique(*fault))?;
    }
    for fault in inverse {
        all.push(RuleFault::InverseCount(*fault))?;
    }
    Ok(all)
}

/// The place of the instance that is at fault.
fn place_of(fault: &RuleFault) -> u64
    ensures { result ≡ place_of fault.now }
{
    match fault {
        RuleFault::NotUnique(fault) => fault.at,
        RuleFault::InverseCount(fault) => fault.at,
    }
}
