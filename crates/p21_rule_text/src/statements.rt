//! What the clauses of a schema's entities state.

ghost use Rattle.std.specs.Prelude.{◌≡◌, ◌++◌, ℕ, List, [], IfErr, IfOk, OnOk, map};
ghost use Rattle.std.specs.List.{flat_map};
ghost use Rattle.p21_express.specs.Answer.{OnRefusal};
ghost use Rattle.p21_express.specs.declared.error.SchemaError.TheVariants.{UnknownName};
ghost use Rattle.p21_schema.specs.declared.ids.EntityId.{EntityId};
ghost use Rattle.p21_rule_text.specs.Clauses.{plain_inverse, plain_unique};
ghost use Rattle.p21_rule_text.specs.Entities.{plain_clauses};
ghost use Rattle.p21_rule_text.specs.Rules.{AreStated, HasUnstated};
ghost use Rattle.p21_rule_text.specs.Statements.{Clause, IsNamed, clauses_of, inverse, numbered};

use crate::clauses::{InverseClause, UniqueClause};
use crate::entities::EntityClauses;
use crate::inverse::inverse_statement;
use crate::rules::Rules;
use crate::unique::unique_statement;
use p21_express::{AttrName, SchemaError, place_at};
use p21_rules::{InverseRule, UniqueRule};
use p21_schema::{EntityId, Schema};
use std::alloc::Global;

/// Of which kind a rule is.
#[derive(Clone, Copy, Debug, PartialEq, Eq)]
pub enum RuleKind {
    Unique,
    Inverse,
}

/// A rule UNIQUE that names a derived or inverse attribute; an INVERSE attribute FOR such a one; or one whose bounds are no numbers. Or a rule UNIQUE in
/// the instances of another entity that derives one of its attributes; or an INVERSE attribute FOR one that another entity derives.
#[derive(Debug, Drop)]
pub struct PassedOver {
    pub kind: RuleKind,
    /// Where it begins in the text, in bytes.
    pub at: u64,
    pub entity: EntityId,
    /// The label of the rule, in upper case, or its number within the entity; or the name of the INVERSE attribute.
    pub label: Vec<u8>,
    /// The name of the derived or inverse attribute, in upper case; empty where bounds are no numbers.
    pub attribute: Vec<u8>,
    /// The name of the other entity that derives the attribute, in upper case; empty where the entity itself has it as a derived or inverse one, and where bounds
    /// are no numbers.
    pub subtype: Vec<u8>,
}

/// What a clause states.
#[derive(Drop)]
pub(crate) enum Statement {
    /// A rule UNIQUE, its label or number, and that it is skipped in the instances of some subtypes.
    Unique(UniqueRule, Vec<u8>, Vec<PassedOver>),
    /// The bounds of an INVERSE attribute, and its name.
    Inverse(InverseRule, Vec<u8>),
    /// Bounds that every count is within.
    AnyCount,
    PassedOver(PassedOver),
}

/// What clauses are looked up in.
#[derive(Clone, Copy)]
pub(crate) struct Known<'k, 'a> {
    pub(crate) schema: &'k Schema,
    pub(crate) clauses: &'k [EntityClauses<'a>],
    /// Where the words of the text begin.
    pub(crate) places: &'k [usize],
}

impl Known<'_, '_> {
    /// That the name from which on so many words stand is of nothing.
    pub(crate) fn unknown(self, left: usize) -> SchemaError
        ensures { (at : ℕ) × (result ≡ UnknownName at) }
    {
        SchemaError::UnknownName(place_at(self.places, left))
    }

    /// That an attribute's name is of nothing, at the entity after SELF, where none has that name, and else at the name itself.
    pub(crate) fn unknown_attribute(self, name: &AttrName) -> SchemaError
        ensures { (at : ℕ) × (result ≡ UnknownName at) }
    {
        self.unknown(match name.of {
            Some(of) if self.schema.entity(of).is_none() => name.place.saturating_sub(2),
            Some(_) => name.place.saturating_sub(4),
            None => name.place,
        })
    }

    /// The entity of this name, from which on so many words stand.
    pub(crate) fn entity(self, name: &[u8], left: usize) -> Result<EntityId, SchemaError>
        ensures ok { IfOk result (IsNamed self.entry.schema.now name.now) }
        ensures refused { IfErr result (λ e. OnRefusal e ((i : EntityId) → ¬ (IsNamed self.entry.schema.now name.now i))) }
    {
        match self.schema.entity(name) {
            Some(entity) => Ok(entity),
            None => Err(self.unknown(left)),
        }
    }
}

/// Adds what the clauses of all entities state.
pub(crate) fn push_statements(
    alloc: Global,
    rules: &mut Rules,
    known: Known,
) -> Result<(), SchemaError>
    ensures ok { let es = map plain_clauses known.entry.clauses.now in OnOk result (AreStated known.entry.schema.now es [] rules.old → AreStated known.entry.schema.now es (flat_map clauses_of es) rules.new) }
    ensures refused { let es = map plain_clauses known.entry.clauses.now in IfErr result (λ e. OnRefusal e (HasUnstated known.entry.schema.now es (flat_map clauses_of es))) }
{
    for entity in known.clauses {
        push_entity(alloc, rules, known, entity)?;
    }
    Ok(())
}

/// Adds what the clauses of an entity state.
fn push_entity(
    alloc: Global,
    rules: &mut Rules,
    known: Known,
    entity: &EntityClauses,
) -> Result<(), SchemaError>
    ensures ok { let stated = AreStated known.entry.schema.now (map plain_clauses known.entry.clauses.now) in OnOk result ((cs : List Clause) → stated cs rules.old → stated (cs ++ clauses_of (plain_clauses entity.now)) rules.new) }
    ensures refused { IfErr result (λ e. OnRefusal e (HasUnstated known.entry.schema.now (map plain_clauses known.entry.clauses.now) (clauses_of (plain_clauses entity.now)))) }
{
    push_inverse(alloc, rules, known, entity.name, &entity.inverse)?;
    push_unique(alloc, rules, known, entity.name, &entity.unique)
}

/// Adds what clauses of INVERSE of an entity state.
fn push_inverse(
    alloc: Global,
    rules: &mut Rules,
    known: Known,
    entity: &[u8],
    clauses: &[InverseClause],
) -> Result<(), SchemaError>
    ensures ok { let stated = AreStated known.entry.schema.now (map plain_clauses known.entry.clauses.now) in OnOk result ((cs : List Clause) → stated cs rules.old → stated (cs ++ map (inverse entity.now) (map plain_inverse clauses.now)) rules.new) }
    ensures refused { IfErr result (λ e. OnRefusal e (HasUnstated known.entry.schema.now (map plain_clauses known.entry.clauses.now) (map (inverse entity.now) (map plain_inverse clauses.now)))) }
{
    for clause in clauses {
        rules.push(inverse_statement(alloc, known, entity, clause)?)?;
    }
    Ok(())
}

/// Adds what clauses of UNIQUE of an entity state.
fn push_unique(
    alloc: Global,
    rules: &mut Rules,
    known: Known,
    entity: &[u8],
    clauses: &[UniqueClause],
) -> Result<(), SchemaError>
    ensures ok { let stated = AreStated known.entry.schema.now (map plain_clauses known.entry.clauses.now) in OnOk result ((cs : List Clause) → stated cs rules.old → stated (cs ++ numbered entity.now 1 (map plain_unique clauses.now)) rules.new) }
    ensures refused { IfErr result (λ e. OnRefusal e (HasUnstated known.entry.schema.now (map plain_clauses known.entry.clauses.now) (numbered entity.now 1 (map plain_unique clauses.now)))) }
{
    for (index, clause) in clauses.iter().enumerate() {
        let number = index as u64 + 1;
        rules.push(unique_statement(alloc, known, entity, number, clause)?)?;
    }
    Ok(())
}
