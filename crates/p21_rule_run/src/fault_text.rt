//! The report of faults by rules.

ghost use Rattle.std.specs.Prelude.{◌≡◌, ◌++◌, [], IfOk, IfSome, OnOk, decimal, get_or, map, option_map, slice_get};
ghost use Rattle.p21_schema.specs.Place.{IsEntityOf};
ghost use Rattle.p21_rule_run.specs.FaultLine.{behind_entity, inverse_count_text, not_unique_text, rule_fault_lines, rule_fault_text};
ghost use Rattle.p21_rule_run.specs.RuleFault.{AreRulesIn};

use crate::rule_fault::RuleFault;
use itoa::Buffer;
use p21_rule_text::Rules;
use p21_rules::{InverseCount, InverseRule, NotUnique, UniqueRule};
use p21_schema::{EntityId, Schema};
use std::alloc::{AllocError, Global};

/// The lines of faults by rules of a schema, in their order. Memory alone can fail.
pub fn render_rule_faults(
    alloc: Global,
    schema: &Schema,
    rules: &Rules,
    faults: &[RuleFault],
) -> Result<Vec<u8>, AllocError>
    requires { AreRulesIn schema.now rules.now }
    // Each line has the entity and the label, or the entity and the name of the INVERSE attribute, at the number of
    // its rule.
    ensures { IfOk result (λ text. text.items ≡ rule_fault_lines schema.now rules.now faults.now) }
{
    let mut text = Vec::new(alloc);
    for fault in faults {
        push_fault(&mut text, schema, rules, fault)?;
    }
    Ok(text)
}

/// Adds the line of a fault.
fn push_fault(
    text: &mut Vec<u8>,
    schema: &Schema,
    rules: &Rules,
    fault: &RuleFault,
) -> Result<(), AllocError>
    requires { AreRulesIn schema.now rules.now }
    ensures { OnOk result (text.new.items ≡ text.old.items ++ rule_fault_text schema.now rules.now fault.now) }
{
    match fault {
        RuleFault::NotUnique(fault) => {
            let entity = unique_entity(&rules.unique, fault.rule);
            let label = name_of(&rules.labels, fault.rule);
            push_not_unique(text, schema, entity, label, fault)
        }
        RuleFault::InverseCount(fault) => {
            let entity = inverse_entity(&rules.inverse, fault.rule);
            let name = name_of(&rules.inverse_names, fault.rule);
            push_inverse_count(text, schema, entity, name, fault)
        }
    }
}

/// The entity of the rule UNIQUE of this number.
fn unique_entity(rules: &[UniqueRule], number: usize) -> Option<EntityId>
    ensures { result ≡ option_map (λ r. r.entity) (slice_get rules.now number) }
{
    match rules.get(number) {
        Some(rule) => Some(rule.entity),
        None => None,
    }
}

/// The entity of the INVERSE attribute of this number.
fn inverse_entity(rules: &[InverseRule], number: usize) -> Option<EntityId>
    ensures { result ≡ option_map (λ r. r.entity) (slice_get rules.now number) }
{
    match rules.get(number) {
        Some(rule) => Some(rule.entity),
        None => None,
    }
}

/// The label or the name of this number.
fn name_of(names: &[Vec<u8>], number: usize) -> &[u8]
    ensures { result.now ≡ get_or (map (λ name. name.items) names.now) number [] }
{
    match names.get(number) {
        Some(name) => name,
        None => &[],
    }
}

/// Adds a name after that of its entity.
fn push_name(
    text: &mut Vec<u8>,
    schema: &Schema,
    entity: Option<EntityId>,
    name: &[u8],
) -> Result<(), AllocError>
    requires { IfSome entity (IsEntityOf schema.now) }
    ensures { OnOk result (text.new.items ≡ text.old.items ++ behind_entity schema.now entity name.now) }
{
    if let Some(entity) = entity {
        text.extend_from_slice(schema.name_of(entity))?;
        text.extend_from_slice(b".")?;
    }
    text.extend_from_slice(name)
}

/// Adds the line of an instance that is not unique.
fn push_not_unique(
    text: &mut Vec<u8>,
    schema: &Schema,
    entity: Option<EntityId>,
    label: &[u8],
    fault: &NotUnique,
) -> Result<(), AllocError>
    requires { IfSome entity (IsEntityOf schema.now) }
    ensures { OnOk result (text.new.items ≡ text.old.items ++ not_unique_text (behind_entity schema.now entity label.now) fault.now) }
{
    text.extend_from_slice(b"fault 16 NotUnique at ")?;
    push_number(text, fault.at)?;
    text.extend_from_slice(b" rule ")?;
    push_name(text, schema, entity, label)?;
    text.extend_from_slice(b" name #")?;
    push_number(text, fault.earlier)?;
    text.push(b'\n')?;
    Ok(())
}

/// Adds the line of an instance to which too few or too many refer.
fn push_inverse_count(
    text: &mut Vec<u8>,
    schema: &Schema,
    entity: Option<EntityId>,
    name: &[u8],
    fault: &InverseCount,
) -> Result<(), AllocError>
    requires { IfSome entity (IsEntityOf schema.now) }
    ensures { OnOk result (text.new.items ≡ text.old.items ++ inverse_count_text (behind_entity schema.now entity name.now) fault.now) }
{
    text.extend_from_slice(b"fault 17 InverseCount at ")?;
    push_number(text, fault.at)?;
    text.extend_from_slice(b" inverse ")?;
    push_name(text, schema, entity, name)?;
    text.extend_from_slice(b" count ")?;
    push_number(text, fault.count)?;
    text.push(b'\n')?;
    Ok(())
}

/// Adds a number in decimal.
pub(crate) fn push_number(text: &mut Vec<u8>, number: u64) -> Result<(), AllocError>
    ensures { OnOk result (text.new.items ≡ text.old.items ++ decimal number) }
{
    text.extend_from_slice(Buffer::new().format(number).as_bytes())
}
