//! What an INVERSE attribute states.

ghost use Rattle.std.specs.Prelude.{◌≡◌, IfErr, IfOk, map};
ghost use Rattle.p21_express.specs.Answer.{OnRefusal};
ghost use Rattle.std.specs.Bool.{MatchBool};
ghost use Rattle.p21_express.specs.Naming.{plain_naming};
ghost use Rattle.p21_rules.specs.InverseCount.{IsInverseRuleOf};
ghost use Rattle.p21_schema.specs.Place.{IsEntityOf};
ghost use Rattle.p21_rule_text.specs.Clauses.{plain_inverse};
ghost use Rattle.p21_express.specs.declared.error.SchemaError.TheVariants.{Memory};
ghost use Rattle.p21_rule_text.specs.declared.statements.RuleKind.TheVariants.{Inverse};
ghost use Rattle.p21_rule_text.specs.declared.statements.Statement.TheVariants.{PassedOver as Passes};
ghost use Rattle.p21_rule_text.specs.Entities.{plain_clauses};
ghost use Rattle.p21_rule_text.specs.Statements.{IsDeclarable, IsStatementOf, IsUnstated, States, bounds_of_rule, inverse};
ghost use Rattle.p21_rule_text.specs.Bounds.{any};

use crate::clauses::InverseClause;
use crate::redeclared::derivers;
use crate::resolve::{Found, is_inverse_of_ancestor, one_meaning, resolve};
use crate::statements::{Known, PassedOver, RuleKind, Statement};
use p21_express::{AttrName, SchemaError, place_at};
use p21_rules::InverseRule;
use p21_schema::EntityId;
use std::alloc::Global;

/// What an INVERSE attribute of an entity states.
pub(crate) fn inverse_statement(
    alloc: Global,
    known: Known,
    entity: &[u8],
    clause: &InverseClause,
) -> Result<Statement, SchemaError>
    ensures ok { IfOk result (States known.entry.schema.now (map plain_clauses known.entry.clauses.now) (inverse entity.now (plain_inverse clause.now))) }
    ensures refused { IfErr result (λ e. OnRefusal e (IsUnstated known.entry.schema.now (map plain_clauses known.entry.clauses.now) (inverse entity.now (plain_inverse clause.now)))) }
{
    known.schema.one_id();
    one_meaning(known.schema);
    let name = clause.name;
    let entity = known.entity(entity, name.place)?;
    if !is_declarable(known, entity, name) {
        return Err(known.unknown_attribute(&name));
    }
    let source = known.entity(clause.source, clause.source_place)?;
    let found = resolve(known.schema, known.clauses, source, clause.attribute);
    match (found, clause.bounds) {
        (Found::Nothing, _) => Err(known.unknown(attribute_place(known, clause))),
        (_, None) => passed_over(alloc, known, entity, clause, b"", b""),
        (Found::Other, Some(_)) => {
            passed_over(alloc, known, entity, clause, clause.attribute.name, b"")
        }
        (Found::Explicit(attribute), Some(bounds)) => {
            let rule = InverseRule {
                entity,
                source,
                attribute,
                is_bag: bounds.is_bag,
                low: bounds.low,
                high: bounds.high,
            };
            rule_statement(alloc, known, clause, rule)
        }
    }
}

/// What an INVERSE attribute states whose bounds are numbers, FOR an explicit attribute.
fn rule_statement(
    alloc: Global,
    known: Known,
    clause: &InverseClause,
    rule: InverseRule,
) -> Result<Statement, SchemaError>
    requires { IsInverseRuleOf known.schema.now rule }
    ensures memory { IfErr result (λ e. e ≡ Memory) }
    ensures ok { IfOk result (IsStatementOf known.entry.schema.now (plain_inverse clause.now) rule) }
{
    if is_any(&rule) {
        return Ok(Statement::AnyCount);
    }
    let subtypes = derivers(alloc, known.schema, rule.source, rule.attribute)?;
    match subtypes.first() {
        Some(subtype) => {
            let subtype = known.schema.name_of(*subtype);
            passed_over(
                alloc,
                known,
                rule.entity,
                clause,
                clause.attribute.name,
                subtype,
            )
        }
        None => {
            let name = Vec::from_slice(alloc, clause.name.name)?;
            Ok(Statement::Inverse(rule, name))
        }
    }
}

/// How many words stand from the word on by which the attribute after FOR is unknown: the entity in front of it, where none has that name, and else the
/// attribute itself.
fn attribute_place(known: Known, clause: &InverseClause) -> usize {
    match clause.attribute.of {
        Some(of) if known.schema.entity(of).is_none() => clause.attribute.place.saturating_add(2),
        _ => clause.attribute.place,
    }
}

/// Whether a name is new, or one of INVERSE that is declared again.
fn is_declarable(known: Known, entity: EntityId, name: AttrName) -> bool
    requires { IsEntityOf known.schema.now entity }
    ensures { let declarable = IsDeclarable known.entry.schema.now (map plain_clauses known.entry.clauses.now) entity (plain_naming name.entry) in MatchBool result declarable (¬ declarable) }
{
    match name.of {
        Some(of) => is_inverse_of_ancestor(known.schema, known.clauses, entity, of, name.name),
        None => true,
    }
}

/// Whether every count is within the bounds.
fn is_any(rule: &InverseRule) -> bool
    ensures { let is_any = bounds_of_rule rule.now ≡ any rule.now.is_bag in MatchBool result is_any (¬ is_any) }
{
    rule.low == 0 && rule.high.is_none()
}

/// That a clause is skipped, for an attribute of this name, perhaps by a subtype, or for its bounds.
fn passed_over(
    alloc: Global,
    known: Known,
    entity: EntityId,
    clause: &InverseClause,
    attribute: &[u8],
    subtype: &[u8],
) -> Result<Statement, SchemaError>
    ensures memory { IfErr result (λ e. e ≡ Memory) }
    ensures ok { IfOk result (λ statement. (p : PassedOver) × (statement ≡ Passes p) × (p.kind ≡ Inverse) × (p.entity ≡ entity) × (p.label.items ≡ clause.now.name.name.now) × (p.attribute.items ≡ attribute.now) × (p.subtype.items ≡ subtype.now)) }
{
    Ok(Statement::PassedOver(PassedOver {
        kind: RuleKind::Inverse,
        at: place_at(known.places, clause.name.place),
        entity,
        label: Vec::from_slice(alloc, clause.name.name)?,
        attribute: Vec::from_slice(alloc, attribute)?,
        subtype: Vec::from_slice(alloc, subtype)?,
    }))
}
