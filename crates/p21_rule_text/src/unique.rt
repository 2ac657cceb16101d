//! What a rule UNIQUE states.

ghost use Rattle.std.specs.Prelude.{◌≡◌, ◌++◌, ℕ, List, IfErr, IfOk, OnOk, map};
ghost use Rattle.std.specs.List.{AllZip};
ghost use Rattle.p21_express.specs.Answer.{OnRefusal};
ghost use Rattle.p21_express.specs.Naming.{plain_namings};
ghost use Rattle.p21_rules.specs.NotUnique.{IsRuleOf};
ghost use Rattle.p21_schema.specs.Place.{IsEntityOf};
ghost use Rattle.p21_schema.specs.Row.{IsAttributeOf, attribute_at};
ghost use Rattle.p21_rule_text.specs.Clauses.{plain_unique};
ghost use Rattle.p21_rule_text.specs.Entities.{plain_clauses};
ghost use Rattle.p21_rule_text.specs.Statements.{AreTold, AreToldOf, IsFirst, IsUnstated, States, label_of, unique};
ghost use Rattle.p21_rule_text.specs.Unique.{AreAttributes, IsNamedAs};
ghost use Rattle.p21_rule_text.specs.declared.statements.PassedOver.{PassedOver as Passed};
ghost use Rattle.p21_rule_text.specs.declared.resolve.Found.TheVariants.{Nothing};

use crate::clauses::UniqueClause;
use crate::redeclared::derivers;
use crate::resolve::{Found, one_meaning, resolve};
use crate::statements::{Known, PassedOver, RuleKind, Statement};
use itoa::Buffer;
use p21_express::{AttrName, SchemaError, place_at};
use p21_rules::UniqueRule;
use p21_schema::{AttrId, EntityId, Schema};
use std::alloc::{AllocError, Global};

/// The attributes of a rule, or the first of its names that is a derived or inverse attribute.
#[derive(Drop)]
enum Attributes<'a> {
    Explicit(Vec<AttrId>),
    Other(&'a [u8]),
}

/// The attributes of these names.
fn attributes_named<'a>(
    alloc: Global,
    known: Known<'_, '_>,
    entity: EntityId,
    names: &[AttrName<'a>],
) -> Result<Attributes<'a>, SchemaError>
    requires { IsEntityOf known.schema.now entity }
    ensures refused { IfErr result (λ e. OnRefusal e ((n : List ℕ) × IsFirst known.entry.schema.now (map plain_clauses known.entry.clauses.now) entity (plain_namings names.now) Nothing n)) }
    ensures ok { IfOk result (AreAttributes known.entry.schema.now (map plain_clauses known.entry.clauses.now) entity (plain_namings names.now)) }
{
    let mut attributes = Vec::new(alloc);
    for name in names {
        match resolve(known.schema, known.clauses, entity, *name) {
            Found::Explicit(attribute) => attributes.push(attribute)?,
            Found::Other => return Ok(Attributes::Other(name.name)),
            Found::Nothing => return Err(known.unknown_attribute(name)),
        }
    }
    Ok(Attributes::Explicit(attributes))
}

/// The label of a rule, or its number.
fn label(alloc: Global, clause: &UniqueClause, number: u64) -> Result<Vec<u8>, AllocError>
    ensures { IfOk result (λ label. label.items ≡ label_of number (plain_unique clause.now).label) }
{
    match clause.label {
        Some(label) => Vec::from_slice(alloc, label),
        None => {
            let mut buffer = Buffer::new();
            Vec::from_slice(alloc, buffer.format(number).as_bytes())
        }
    }
}

/// What a rule of an entity states, of this number there.
pub(crate) fn unique_statement(
    alloc: Global,
    known: Known,
    entity: &[u8],
    number: u64,
    clause: &UniqueClause,
) -> Result<Statement, SchemaError>
    ensures ok { IfOk result (States known.entry.schema.now (map plain_clauses known.entry.clauses.now) (unique entity.now number (plain_unique clause.now))) }
    ensures refused { IfErr result (λ e. OnRefusal e (IsUnstated known.entry.schema.now (map plain_clauses known.entry.clauses.now) (unique entity.now number (plain_unique clause.now)))) }
{
    known.schema.one_id();
    one_meaning(known.schema);
    let entity = known.entity(entity, clause.place)?;
    let at = place_at(known.places, clause.place);
    let label = label(alloc, clause, number)?;
    match attributes_named(alloc, known, entity, &clause.names)? {
        Attributes::Explicit(attributes) => {
            let rule = UniqueRule { entity, attributes };
            let told = told(alloc, known, at, &clause.names, &rule, &label)?;
            Ok(Statement::Unique(rule, label, told))
        }
        Attributes::Other(attribute) => Ok(Statement::PassedOver(PassedOver {
            kind: RuleKind::Unique,
            at,
            entity,
            label,
            attribute: Vec::from_slice(alloc, attribute)?,
            subtype: Vec::new(alloc),
        })),
    }
}

/// That a rule is skipped in the instances of each entity below its own that derives one of its attributes, of which these are the names.
fn told(
    alloc: Global,
    known: Known,
    at: u64,
    names: &[AttrName],
    rule: &UniqueRule,
    label: &[u8],
) -> Result<Vec<PassedOver>, AllocError>
    requires rule { IsRuleOf known.schema.now rule.now }
    requires names { AllZip (IsNamedAs known.schema.now) (plain_namings names.now) rule.now.attributes.items }
    ensures { IfOk result (λ told. AreTold known.entry.schema.now rule.now label.now rule.now.attributes.items told.items) }
{
    let mut told = Vec::new(alloc);
    for index in 0..names.len() {
        let below = Below {
            at,
            rule,
            label,
            name: names[index].name,
        };
        push_told(
            alloc,
            known.schema,
            below,
            rule.attributes[index],
            &mut told,
        )?;
    }
    Ok(told)
}

/// A rule, of which one attribute has this name.
#[derive(Clone, Copy)]
struct Below<'t> {
    at: u64,
    rule: &'t UniqueRule,
    label: &'t [u8],
    name: &'t [u8],
}

/// Adds the same of one attribute.
fn push_told(
    alloc: Global,
    schema: &Schema,
    below: Below,
    attribute: AttrId,
    told: &mut Vec<PassedOver>,
) -> Result<(), AllocError>
    requires entity { IsEntityOf schema.now below.rule.now.entity }
    requires attribute { IsAttributeOf schema.now attribute }
    requires name { (attribute_at schema.now attribute).name ≡ below.name.now }
    ensures { OnOk result ((ps : List Passed) × AreToldOf schema.now below.entry.rule.now below.entry.label.now attribute ps × (told.new.items ≡ told.old.items ++ ps)) }
{
    let subtypes = derivers(alloc, schema, below.rule.entity, attribute)?;
    for subtype in &subtypes {
        told.push(PassedOver {
            kind: RuleKind::Unique,
            at: below.at,
            entity: below.rule.entity,
            label: Vec::from_slice(alloc, below.label)?,
            attribute: Vec::from_slice(alloc, below.name)?,
            subtype: Vec::from_slice(alloc, schema.name_of(*subtype))?,
        })?;
    }
    Ok(())
}
