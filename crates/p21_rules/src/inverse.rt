//! The bounds of INVERSE attributes over the instances of a file.

ghost use Rattle.std.specs.Prelude.{◌≡◌, ◌+◌, ◌++◌, ◌∷◌, [], List, Some, length, IfOk, OnOk, map};
ghost use Rattle.p21_check.specs.EntityOf.{AreSimpleEntities};
ghost use Rattle.p21_check.specs.EntitySet.{keywords};
ghost use Rattle.p21_schema.specs.Place.{entity_name};
ghost use Rattle.p21_tree.specs.Sentence.{Instance};
ghost use Rattle.p21_tree.specs.Views.{plain_instance};
ghost use Rattle.p21_rules.specs.Concerned.{IsSubject};
ghost use Rattle.p21_rules.specs.Counters.{CountAll};
ghost use Rattle.p21_rules.specs.InverseCount.{count_fault, is_within, AreCountsAt, AreInverseCounts, AreInverseRulesOf, IsInverseRuleOf, RefersTo};
ghost use Rattle.p21_rules.specs.Named.{AreNamed};
ghost use Rattle.p21_rules.specs.Parameter.{IsOf};

use crate::attributes::parameter;
use crate::concerned::{Subject, concerns_of, empty_room, subject_of};
use crate::counters::{Counters, count_names, count_of, no_counters};
use crate::mentions::push_mentions;
use crate::rule::InverseRule;
use p21_schema::{EntityId, Schema};
use p21_tree::RawInstance;
use std::alloc::{AllocError, Global};

/// An instance to which too few or too many others refer, by the bounds of an INVERSE attribute.
#[derive(Clone, Copy, Debug, PartialEq, Eq)]
pub struct InverseCount {
    /// The place of the instance's name, in bytes from the file's first byte.
    pub at: u64,
    /// The place of the rule among the rules.
    pub rule: usize,
    /// How many refer to it.
    pub count: u64,
}

/// The faults of the instances of a file by the bounds of INVERSE attributes, in the order of the instances, and of one instance in the
/// order of the rules. The entities are those of the instances: `None` for one that is complex or whose keyword names no entity. Memory
/// alone can fail.
///
/// Cost: As `all_not_unique`, once by the entities that have the attributes and once by those that refer. A counter
/// takes some 50 bytes, for each attribute and each instance that is referred to by it.
pub fn all_inverse_counts(
    alloc: Global,
    schema: &Schema,
    rules: &[InverseRule],
    instances: &[RawInstance<'_>],
    entities: &[Option<EntityId>],
) -> Result<Vec<InverseCount>, AllocError>
    requires rules { AreInverseRulesOf schema.now rules.now }
    requires entities { AreSimpleEntities schema.now (map plain_instance instances.now) entities.now }
    // Exactly the instances whose count is not within the bounds, each with this count: the sum over all instances of
    // the entity that refers of their references to the name by the attribute, in lists and typed values too; each
    // counts for a BAG, and otherwise an instance once.
    ensures { IfOk result (λ faults. AreInverseCounts schema.now rules.now (map plain_instance instances.now) faults.items) }
{
    let counters = count_all(alloc, schema, rules, instances, entities)?;
    let wanted = wanted_entities(alloc, rules)?;
    let concerns = concerns_of(alloc, schema, wanted)?;
    let mut room = empty_room(alloc);
    let mut faults = Vec::new(alloc);
    for place in 0..instances.len() {
        let instance = &instances[place];
        let subject = subject_of(schema, &concerns, &entities[place], instance, &mut room)?;
        push_faults(schema, rules, &counters, subject, instance, &mut faults)?;
    }
    Ok(faults)
}

/// The entity that has the attribute, of each rule.
fn wanted_entities(alloc: Global, rules: &[InverseRule]) -> Result<Vec<EntityId>, AllocError>
    ensures { IfOk result (λ wanted. wanted.items ≡ map (λ rule. rule.entity) rules.now) }
{
    let mut wanted = Vec::new(alloc);
    for rule in rules {
        wanted.push(rule.entity)?;
    }
    Ok(wanted)
}

/// The entity whose instances refer, of each rule.
fn wanted_sources(alloc: Global, rules: &[InverseRule]) -> Result<Vec<EntityId>, AllocError>
    ensures { IfOk result (λ wanted. wanted.items ≡ map (λ rule. rule.source) rules.now) }
{
    let mut wanted = Vec::new(alloc);
    for rule in rules {
        wanted.push(rule.source)?;
    }
    Ok(wanted)
}

/// The counters of each rule over the instances.
fn count_all(
    alloc: Global,
    schema: &Schema,
    rules: &[InverseRule],
    instances: &[RawInstance<'_>],
    entities: &[Option<EntityId>],
) -> Result<Vec<Counters>, AllocError>
    requires rules { AreInverseRulesOf schema.now rules.now }
    requires entities { AreSimpleEntities schema.now (map plain_instance instances.now) entities.now }
    ensures { IfOk result (λ all. CountAll schema.now rules.now all.items (λ k. map plain_instance instances.now)) }
{
    let wanted = wanted_sources(alloc, rules)?;
    let concerns = concerns_of(alloc, schema, wanted)?;
    let mut room = empty_room(alloc);
    let mut all = none_counted(alloc, schema, rules)?;
    let mut names = Vec::new(alloc);
    for place in 0..instances.len() {
        let instance = &instances[place];
        let subject = subject_of(schema, &concerns, &entities[place], instance, &mut room)?;
        count_instance(
            schema, rules, subject, instance, place, &mut names, &mut all,
        )?;
    }
    Ok(all)
}

/// The counters of each rule over no instances.
fn none_counted(
    alloc: Global,
    schema: &Schema,
    rules: &[InverseRule],
) -> Result<Vec<Counters>, AllocError>
    ensures { IfOk result (λ all. CountAll schema.now rules.now all.items (λ k. [])) }
{
    let mut all = Vec::new(alloc);
    for _ in rules {
        all.push(no_counters(alloc, schema.hash_key()))?;
    }
    Ok(all)
}

/// Counts the references of the instance at a place under the rules by which it may refer.
fn count_instance(
    schema: &Schema,
    rules: &[InverseRule],
    subject: Subject<'_>,
    instance: &RawInstance<'_>,
    place: usize,
    names: &mut Vec<u64>,
    all: &mut Vec<Counters>,
) -> Result<(), AllocError>
    requires rules { AreInverseRulesOf schema.now rules.now }
    requires subject { IsSubject schema.now (map (λ rule. rule.source) rules.now) (plain_instance instance.now) subject }
    requires long { length all.old.items ≡ length rules.now }
    ensures { (before : List Instance) → length before ≡ place → CountAll schema.now rules.now all.old.items (λ k. before) → OnOk result (CountAll schema.now rules.now all.new.items (λ k. before ++ plain_instance instance.now ∷ [])) }
{
    for next in 0..subject.numbers.len() {
        let number = subject.numbers[next];
        let rule = &rules[number];
        push_names(schema, rule, subject.named, instance, names)?;
        count_names(&mut all[number], rule.is_bag, place, names)?;
    }
    Ok(())
}

/// The names to which an instance of the entity that refers does under a rule, in place of those that are there.
fn push_names(
    schema: &Schema,
    rule: &InverseRule,
    named: &[Option<EntityId>],
    instance: &RawInstance<'_>,
    names: &mut Vec<u64>,
) -> Result<(), AllocError>
    requires rule { IsInverseRuleOf schema.now rule.now }
    requires named { AreNamed schema.now (keywords (plain_instance instance.now)) named.now }
    requires of { IsOf schema.now (plain_instance instance.now) (entity_name schema.now rule.now.source) }
    ensures { OnOk result (RefersTo schema.now rule.now (plain_instance instance.now) names.new.items) }
{
    names.clear();
    match parameter(schema, named, instance, rule.attribute) {
        Some(param) => push_mentions(names, param),
        None => Ok(()),
    }
}

/// Adds the faults of an instance by the rules that concern it.
fn push_faults(
    schema: &Schema,
    rules: &[InverseRule],
    all: &[Counters],
    subject: Subject<'_>,
    instance: &RawInstance<'_>,
    faults: &mut Vec<InverseCount>,
) -> Result<(), AllocError>
    requires rules { AreInverseRulesOf schema.now rules.now }
    requires subject { IsSubject schema.now (map (λ rule. rule.entity) rules.now) (plain_instance instance.now) subject }
    requires long { length all.now ≡ length rules.now }
    ensures { (is : List Instance) → CountAll schema.now rules.now all.now (λ k. is) → OnOk result ((fs : List InverseCount) × AreCountsAt schema.now is (plain_instance instance.now) 0 rules.now fs × (faults.new.items ≡ faults.old.items ++ fs)) }
{
    for place in 0..subject.numbers.len() {
        let number = subject.numbers[place];
        let count = count_of(&all[number], instance.name);
        push_fault(faults, instance.at, number, &rules[number], count)?;
    }
    Ok(())
}

/// Adds the fault of an instance at a place by the rule of this number, if its count is not within the bounds.
fn push_fault(
    faults: &mut Vec<InverseCount>,
    at: u64,
    number: usize,
    rule: &InverseRule,
    count: u64,
) -> Result<(), AllocError>
    ensures { OnOk result (faults.new.items ≡ faults.old.items ++ count_fault at number rule.now (Some count)) }
{
    if !is_within(rule, count) {
        faults.push(InverseCount {
            at,
            rule: number,
            count,
        })?;
    }
    Ok(())
}

/// Whether a count is within the bounds of a rule.
fn is_within(rule: &InverseRule, count: u64) -> bool
    ensures { result ≡ is_within rule.now count }
{
    rule.low <= count
        && match rule.high {
            Some(high) => count <= high,
            None => true,
        }
}
