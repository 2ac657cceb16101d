//! UNIQUE over the instances of a file.

ghost use Rattle.std.specs.Prelude.{◌≡◌, ◌+◌, ◌++◌, List, Some, All, IfOk, OnOk, map, slice_get};
ghost use Rattle.p21_check.specs.EntityOf.{AreSimpleEntities};
ghost use Rattle.p21_check.specs.EntitySet.{keywords};
ghost use Rattle.p21_schema.specs.Place.{entity_name};
ghost use Rattle.p21_schema.specs.Row.{IsAttributeOf, attribute_at};
ghost use Rattle.p21_tree.specs.Sentence.{Instance};
ghost use Rattle.p21_tree.specs.Views.{plain_instance};
ghost use Rattle.p21_rules.specs.declared.rule.UniqueRule.{UniqueRule as Rule};
ghost use Rattle.p21_rules.specs.Concerned.{IsSubject};
ghost use Rattle.p21_rules.specs.Firsts.{breach_of, AreAdded, ArePushed, Holds, IsBreach, IsKey, seen_below};
ghost use Rattle.p21_rules.specs.Named.{AreNamed};
ghost use Rattle.p21_rules.specs.NotUnique.{AreFaults, AreRulesOf, IsRuleOf};
ghost use Rattle.p21_rules.specs.Parameter.{IsOf};

use crate::attributes::parameter;
use crate::code::push_number;
use crate::concerned::{Subject, concerns_of, empty_room, subject_of};
use crate::firsts::{Firsts, first_of, no_firsts};
use crate::rule::UniqueRule;
use crate::slots::push_attribute;
use p21_schema::{AttrId, EntityId, Schema};
use p21_text::items_are_unique;
use p21_tree::RawInstance;
use std::alloc::{AllocError, Global};

/// An instance that breaks a rule of UNIQUE: an earlier one has the same values.
#[derive(Clone, Copy, Debug, PartialEq, Eq)]
pub struct NotUnique {
    /// The place of the instance's name, in bytes from the file's first byte.
    pub at: u64,
    /// The place of the rule among the rules.
    pub rule: usize,
    /// The name of the first instance that has these values.
    pub earlier: u64,
}

/// The faults of the instances of a file by rules of UNIQUE, in the order of the instances, and of one instance in the order of the
/// rules. An instance of which a value is `$`, `*`, a real whose exponent is 10^17 or more or -10^17 or less, a list with such an element or a list
/// for which the type is no aggregate is skipped by the rule. The entities are those of the instances: `None` for one that is complex or
/// whose keyword names no entity. Memory alone can fail.
///
/// Cost: Once a bit for each entity of the schema and each rule, and the numbers of the rules of each entity. For
/// each instance a look at the numbers of its entity, and for a complex one a look-up for each record. For each rule
/// that concerns it, its values, in time and memory, and a search through the attributes of its entity. Elements of a
/// SET or a BAG are held once more in memory, and sorted.
pub fn all_not_unique(
    alloc: Global,
    schema: &Schema,
    rules: &[UniqueRule],
    instances: &[RawInstance<'_>],
    entities: &[Option<EntityId>],
) -> Result<Vec<NotUnique>, AllocError>
    requires rules { AreRulesOf schema.now rules.now }
    requires entities { AreSimpleEntities schema.now (map plain_instance instances.now) entities.now }
    // Exactly the instances that have under a rule the values of an earlier one, each with the name of the first
    // such.
    ensures { IfOk result (λ faults. AreFaults schema.now rules.now (map plain_instance instances.now) faults.items) }
{
    let wanted = wanted_entities(alloc, rules)?;
    let concerns = concerns_of(alloc, schema, wanted)?;
    let mut room = empty_room(alloc);
    let mut firsts = no_firsts(alloc, schema.hash_key());
    let mut faults = Vec::new(alloc);
    for place in 0..instances.len() {
        let instance = &instances[place];
        let subject = subject_of(schema, &concerns, &entities[place], instance, &mut room)?;
        push_faults(
            alloc,
            schema,
            rules,
            subject,
            instance,
            &mut firsts,
            &mut faults,
        )?;
    }
    Ok(faults)
}

/// The entity of each rule.
fn wanted_entities(alloc: Global, rules: &[UniqueRule]) -> Result<Vec<EntityId>, AllocError>
    ensures { IfOk result (λ wanted. wanted.items ≡ map (λ rule. rule.entity) rules.now) }
{
    let mut wanted = Vec::new(alloc);
    for rule in rules {
        wanted.push(rule.entity)?;
    }
    Ok(wanted)
}

/// Adds the faults of an instance by the rules that concern it.
fn push_faults(
    alloc: Global,
    schema: &Schema,
    rules: &[UniqueRule],
    subject: Subject<'_>,
    instance: &RawInstance<'_>,
    firsts: &mut Firsts,
    faults: &mut Vec<NotUnique>,
) -> Result<(), AllocError>
    requires rules { AreRulesOf schema.now rules.now }
    requires subject { IsSubject schema.now (map (λ rule. rule.entity) rules.now) (plain_instance instance.now) subject }
    ensures { (before : List Instance) → Holds schema.now rules.now firsts.old (λ k. before) → OnOk result (AreAdded schema.now rules.now before (plain_instance instance.now) firsts.new faults.old.items faults.new.items) }
{
    for place in 0..subject.numbers.len() {
        let number = subject.numbers[place];
        let rule = &rules[number];
        let found = breach(alloc, schema, number, rule, subject.named, instance, firsts)?;
        push_breach(faults, instance.at, number, found)?;
    }
    Ok(())
}

/// Adds the fault of an instance at a place by a rule, if it breaks it.
fn push_breach(
    faults: &mut Vec<NotUnique>,
    at: u64,
    rule: usize,
    found: Option<u64>,
) -> Result<(), AllocError>
    ensures { OnOk result (faults.new.items ≡ faults.old.items ++ breach_of at rule found) }
{
    if let Some(earlier) = found {
        faults.push(NotUnique { at, rule, earlier })?;
    }
    Ok(())
}

/// Whether an instance of a rule's entity breaks the rule: the name of the first earlier one with the same values. Its own name is kept where there is none.
fn breach(
    alloc: Global,
    schema: &Schema,
    number: usize,
    rule: &UniqueRule,
    named: &[Option<EntityId>],
    instance: &RawInstance<'_>,
    firsts: &mut Firsts,
) -> Result<Option<u64>, AllocError>
    requires rule { IsRuleOf schema.now rule.now }
    requires named { AreNamed schema.now (keywords (plain_instance instance.now)) named.now }
    requires of { IsOf schema.now (plain_instance instance.now) (entity_name schema.now rule.now.entity) }
    ensures { (rules : List Rule) → (before : List Instance) → slice_get rules number ≡ Some rule.now → Holds schema.now rules firsts.old (seen_below before (plain_instance instance.now) number)
        → IfOk result (λ found. IsBreach schema.now rule.now before (plain_instance instance.now) found × Holds schema.now rules firsts.new (seen_below before (plain_instance instance.now) (number + 1))) }
{
    items_are_unique();
    schema.fits();
    match key(alloc, schema, number, rule, named, instance)? {
        Some(key) => first_of(firsts, key, instance.name),
        None => Ok(None),
    }
}

/// The key of the values that an instance of a rule's entity has under the rule; `None` where it has none.
fn key(
    alloc: Global,
    schema: &Schema,
    number: usize,
    rule: &UniqueRule,
    named: &[Option<EntityId>],
    instance: &RawInstance<'_>,
) -> Result<Option<Vec<u8>>, AllocError>
    requires rule { IsRuleOf schema.now rule.now }
    requires named { AreNamed schema.now (keywords (plain_instance instance.now)) named.now }
    requires of { IsOf schema.now (plain_instance instance.now) (entity_name schema.now rule.now.entity) }
    ensures { IfOk result (IsKey schema.now number rule.now (plain_instance instance.now)) }
{
    let mut code = Vec::new(alloc);
    push_number(&mut code, number as u64)?;
    if push_values(schema, named, instance, &rule.attributes, &mut code)? {
        Ok(Some(code))
    } else {
        Ok(None)
    }
}

/// Adds the values of attributes in an instance, and answers whether it has all of them.
fn push_values(
    schema: &Schema,
    named: &[Option<EntityId>],
    instance: &RawInstance<'_>,
    attributes: &[AttrId],
    code: &mut Vec<u8>,
) -> Result<bool, AllocError>
    requires attributes { All (IsAttributeOf schema.now) attributes.now }
    requires named { AreNamed schema.now (keywords (plain_instance instance.now)) named.now }
    ensures { IfOk result (ArePushed schema.now (plain_instance instance.now) (map (attribute_at schema.now) attributes.now) code.old.items code.new.items) }
{
    schema.fits();
    for attribute in attributes {
        let param = match parameter(schema, named, instance, *attribute) {
            Some(param) => param,
            None => return Ok(false),
        };
        if !push_attribute(schema, named, instance, *attribute, code, param)? {
            return Ok(false);
        }
    }
    Ok(true)
}
