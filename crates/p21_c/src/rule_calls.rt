//! The rules of a schema, and the faults of models by them.

use crate::codes::{CFault, HANDLE, MEMORY, NONE, OK, inverse_fault, unique_fault, where_fault};
use crate::handle::Handle;
use crate::held::{Held, HeldModel, HeldRules};
use crate::models::{model_in, rules_in, schema_in};
use crate::reading::{hand_out, tell_refused};
use crate::rule_words::{explained, rule_of, stated, where_rule_of};
use crate::schema_calls::hand_text;
use p21_join::ModelEntities;
use p21_rule_text::read_rules;
use p21_rules::{InverseCount, NotUnique, all_inverse_counts, all_not_unique};
use p21_where::Undivided;
use p21_where_findings::{BrokenRule, STEPS, spelled_name};
use p21_where_text::{where_findings, where_rules_of};
use std::alloc::{AllocError, Global};

/// Reads the rules UNIQUE and WHERE and the INVERSE attributes of a schema's text.
///
/// It hands on the results of `read_rules` and `where_rules_of`.
#[unsafe(no_mangle)]
pub extern "C" fn p21_rules_read(
    alloc: Global,
    schema: Handle,
    text: &'static [u8],
    out: &mut *mut u8,
    fault: &mut CFault,
) -> i32 {
    let Some(schema) = schema_in(schema) else {
        return HANDLE;
    };
    match read_rules(alloc, text, &schema.schema) {
        Ok(rules) => {
            let Ok(by_where) = where_rules_of(alloc, &schema.schema, text) else {
                return MEMORY;
            };
            let held = HeldRules {
                schema,
                text,
                rules,
                by_where,
            };
            hand_out(alloc, Held::Rules(held), out)
        }
        Err(error) => tell_refused(error, fault),
    }
}

/// The faults of a model by rules: those of UNIQUE and INVERSE in the order of their places, and of one place those of UNIQUE first, and after all of
/// these those of WHERE; as many as there is room for.
///
/// It hands on the results of `all_not_unique`, `all_inverse_counts` and `where_findings`. Their order is tested.
#[unsafe(no_mangle)]
pub extern "C" fn p21_rules_check(
    alloc: Global,
    rules: Handle,
    model: Handle,
    room: &mut [CFault],
    count: &mut u64,
) -> i32 {
    let (Some(rules), Some(model)) = (rules_in(rules), model_in(model)) else {
        return HANDLE;
    };
    match faults_of(alloc, rules, model) {
        Ok(faults) => {
            for place in 0..faults.len().min(room.len()) {
                room[place] = faults[place];
            }
            *count = faults.len() as u64;
            OK
        }
        Err(_) => MEMORY,
    }
}

/// The faults of a model by rules, in their order.
fn faults_of(alloc: Global, held: &HeldRules, read: &HeldModel) -> Result<Vec<CFault>, AllocError> {
    let (schema, model) = (&held.schema.schema, &read.model);
    let instances = model.instances();
    let known = ModelEntities::new(alloc, schema, model)?;
    let entities = known.entities();
    let unique = all_not_unique(alloc, schema, &held.rules.unique, instances, entities)?;
    let inverse = all_inverse_counts(alloc, schema, &held.rules.inverse, instances, entities)?;
    let mut faults = Vec::new(alloc);
    push_unique(&mut faults, &unique)?;
    push_inverse(&mut faults, &inverse)?;
    faults.sort_by_key(|fault: &CFault| fault.at)?;
    let by_where = where_findings(
        &Undivided, alloc, schema, held.text, STEPS, read.file, model,
    )?;
    push_broken(&mut faults, &by_where.broken)?;
    Ok(faults)
}

/// Adds faults by rules UNIQUE.
fn push_unique(faults: &mut Vec<CFault>, found: &[NotUnique]) -> Result<(), AllocError> {
    for fault in found {
        faults.push(unique_fault(fault))?;
    }
    Ok(())
}

/// Adds faults by INVERSE attributes.
fn push_inverse(faults: &mut Vec<CFault>, found: &[InverseCount]) -> Result<(), AllocError> {
    for fault in found {
        faults.push(inverse_fault(fault))?;
    }
    Ok(())
}

/// Adds faults by rules WHERE.
fn push_broken(faults: &mut Vec<CFault>, found: &[BrokenRule]) -> Result<(), AllocError> {
    for broken in found {
        faults.push(where_fault(broken))?;
    }
    Ok(())
}

/// A fault by a rule, in words.
///
/// It hands on the result of `explain_not_unique`, `explain_inverse_count` or `explain_broken`: the text has no control characters but line ends.
#[unsafe(no_mangle)]
pub extern "C" fn p21_rules_explain(
    alloc: Global,
    rules: Handle,
    file: &[u8],
    path: &[u8],
    fault: &CFault,
    room: &mut [u8],
    length: &mut u64,
) -> i32 {
    let Some(held) = rules_in(rules) else {
        return HANDLE;
    };
    match explained(alloc, held, file, path, fault) {
        Ok(Some(said)) => hand_text(said.as_bytes(), room, length),
        Ok(None) => NONE,
        Err(_) => MEMORY,
    }
}

/// The name of the rule that a fault breaks, behind that of its entity.
///
/// Tested.
#[unsafe(no_mangle)]
pub extern "C" fn p21_rules_name(
    alloc: Global,
    rules: Handle,
    fault: &CFault,
    room: &mut [u8],
    length: &mut u64,
) -> i32 {
    let Some(held) = rules_in(rules) else {
        return HANDLE;
    };
    match name_of(alloc, held, fault) {
        Ok(Some(name)) => hand_text(&name, room, length),
        Ok(None) => NONE,
        Err(_) => MEMORY,
    }
}

/// The name of the rule that a fault breaks.
fn name_of(alloc: Global, held: &HeldRules, fault: &CFault) -> Result<Option<Vec<u8>>, AllocError> {
    if let Some(rule) = where_rule_of(held, fault) {
        return Ok(Some(spelled_name(alloc, stated(held), rule)?));
    }
    let Some(rule) = rule_of(&held.rules, fault) else {
        return Ok(None);
    };
    let mut name = Vec::new(alloc);
    if let Some(entity) = held.schema.spellings.entities.get(rule.entity.place()) {
        name.extend_from_slice(entity)?;
    }
    name.extend_from_slice(b".")?;
    name.extend_from_slice(rule.label)?;
    Ok(Some(name))
}
