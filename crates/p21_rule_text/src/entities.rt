//! The clauses of the entities of a schema, in the order of its words.

ghost use Rattle.std.specs.Prelude.{◌≡◌, ◌++◌, OnOk, map};
ghost use Rattle.p21_express.specs.Grammar.{begins_rules, ends_attributes};
ghost use Rattle.p21_express.specs.Reader.{words_of, again_of, Gives, many_at};
ghost use Rattle.p21_rule_text.specs.Clauses.{inverse_at, plain_inverse, plain_unique, unique_at};
ghost use Rattle.p21_rule_text.specs.Entities.{behind_attributes, behind_statements, declaration_at, none_or_one, declarations_at, entities_at, entity_at, entity_end, if_inverses_at, if_uniques_at, inverses_at, plain_clauses, skipped_at, type_at, type_end, uniques_at};

use crate::clauses::{InverseClause, UniqueClause, inverse, unique};
use p21_express::{
    DeclWord, Refusal, Word, begins_name, begins_rules, behind, behind_stop, decl_word, if_name,
    keyword, name, symbol,
};
use std::alloc::{AllocError, Global};

/// The clauses of an entity.
#[derive(Drop)]
pub(crate) struct EntityClauses<'a> {
    pub(crate) name: &'a [u8],
    /// How many words stand from its name on.
    pub(crate) place: usize,
    pub(crate) inverse: Vec<InverseClause<'a>>,
    pub(crate) unique: Vec<UniqueClause<'a>>,
}

/// Whether what stands after the explicit attributes of an entity begins.
fn ends_attributes(words: &[Word]) -> bool
    ensures { result ≡ ends_attributes (words_of words.now) }
{
    begins_name(words, b"DERIVE") || begins_rules(words)
}

/// The words after the explicit attributes of an entity.
#[tactic(auto, unfolding(crate::specs::Entities::behind_statements))]
fn behind_explicit<'t, 'a>(words: &'t [Word<'a>]) -> Result<&'t [Word<'a>], Refusal>
    ensures { Gives (λ x. words_of x.now) result (behind_statements ends_attributes (words_of words.now)) }
{
    let (_, mut rest) = words.split_at(0);
    while !ends_attributes(rest) {
        rest = behind_stop(rest, b';')?;
    }
    Ok(rest)
}

/// The words after the attributes of DERIVE.
#[tactic(auto, unfolding(crate::specs::Entities::behind_statements))]
fn behind_derived<'t, 'a>(words: &'t [Word<'a>]) -> Result<&'t [Word<'a>], Refusal>
    ensures { Gives (λ x. words_of x.now) result (behind_statements begins_rules (words_of words.now)) }
{
    let (_, mut rest) = words.split_at(0);
    while !begins_rules(rest) {
        rest = behind_stop(rest, b';')?;
    }
    Ok(rest)
}

/// The words after the attributes of an entity, explicit and in DERIVE.
#[tactic(auto, unfolding(crate::specs::Entities::behind_attributes, crate::specs::Entities::behind_derive))]
fn behind_attributes<'t, 'a>(words: &'t [Word<'a>]) -> Result<&'t [Word<'a>], Refusal>
    ensures { Gives (λ x. words_of x.now) result (behind_attributes (words_of words.now)) }
{
    let (is_derive, rest) = if_name(behind_explicit(words)?, b"DERIVE");
    if is_derive {
        return behind_derived(rest);
    }
    Ok(rest)
}

/// The attributes after INVERSE.
fn inverses_from<'t, 'a>(
    alloc: Global,
    words: &'t [Word<'a>],
) -> Result<(Vec<InverseClause<'a>>, &'t [Word<'a>]), Refusal>
    ensures { Gives (λ x. (map plain_inverse x.0.items, words_of x.1.now)) result (many_at begins_rules inverse_at (words_of words.now)) }
{
    let (_, mut rest) = words.split_at(0);
    let mut clauses = Vec::new(alloc);
    while !begins_rules(rest) {
        let (next, behind) = inverse(rest)?;
        clauses.push(next)?;
        rest = behind;
    }
    Ok((clauses, rest))
}

/// INVERSE and its attributes, one or more.
#[tactic(auto, unfolding(crate::specs::Entities::inverses_at))]
fn inverses<'t, 'a>(
    alloc: Global,
    words: &'t [Word<'a>],
) -> Result<(Vec<InverseClause<'a>>, &'t [Word<'a>]), Refusal>
    ensures { Gives (λ x. (map plain_inverse x.0.items, words_of x.1.now)) result (inverses_at (words_of words.now)) }
{
    let rest = keyword(words, b"INVERSE")?;
    if begins_rules(rest) {
        return Err(Refusal::syntax(rest.len()));
    }
    inverses_from(alloc, rest)
}

#[tactic(auto, unfolding(crate::specs::Entities::if_inverses_at))]
fn if_inverses<'t, 'a>(
    alloc: Global,
    words: &'t [Word<'a>],
) -> Result<(Vec<InverseClause<'a>>, &'t [Word<'a>]), Refusal>
    ensures { Gives (λ x. (map plain_inverse x.0.items, words_of x.1.now)) result (if_inverses_at (words_of words.now)) }
{
    if begins_name(words, b"INVERSE") {
        return inverses(alloc, words);
    }
    Ok((Vec::new(alloc), words))
}

/// The rules after UNIQUE.
fn uniques_from<'t, 'a>(
    alloc: Global,
    words: &'t [Word<'a>],
) -> Result<(Vec<UniqueClause<'a>>, &'t [Word<'a>]), Refusal>
    ensures { Gives (λ x. (map plain_unique x.0.items, words_of x.1.now)) result (many_at begins_rules unique_at (words_of words.now)) }
{
    let (_, mut rest) = words.split_at(0);
    let mut clauses = Vec::new(alloc);
    while !begins_rules(rest) {
        let (next, behind) = unique(alloc, rest)?;
        clauses.push(next)?;
        rest = behind;
    }
    Ok((clauses, rest))
}

/// UNIQUE and its rules, one or more.
#[tactic(auto, unfolding(crate::specs::Entities::uniques_at))]
fn uniques<'t, 'a>(
    alloc: Global,
    words: &'t [Word<'a>],
) -> Result<(Vec<UniqueClause<'a>>, &'t [Word<'a>]), Refusal>
    ensures { Gives (λ x. (map plain_unique x.0.items, words_of x.1.now)) result (uniques_at (words_of words.now)) }
{
    let rest = keyword(words, b"UNIQUE")?;
    if begins_rules(rest) {
        return Err(Refusal::syntax(rest.len()));
    }
    uniques_from(alloc, rest)
}

#[tactic(auto, unfolding(crate::specs::Entities::if_uniques_at))]
fn if_uniques<'t, 'a>(
    alloc: Global,
    words: &'t [Word<'a>],
) -> Result<(Vec<UniqueClause<'a>>, &'t [Word<'a>]), Refusal>
    ensures { Gives (λ x. (map plain_unique x.0.items, words_of x.1.now)) result (if_uniques_at (words_of words.now)) }
{
    if begins_name(words, b"UNIQUE") {
        return uniques(alloc, words);
    }
    Ok((Vec::new(alloc), words))
}

/// The words after WHERE and its rules, if they are there, and END_ENTITY.
#[tactic(auto, unfolding(crate::specs::Entities::entity_end))]
fn entity_end<'t, 'a>(words: &'t [Word<'a>]) -> Result<&'t [Word<'a>], Refusal>
    ensures { Gives (λ x. words_of x.now) result (entity_end (words_of words.now)) }
{
    if begins_name(words, b"WHERE") {
        return behind(words, None, b"END_ENTITY");
    }
    keyword(words, b"END_ENTITY")
}

/// The clauses of an entity after the word ENTITY.
#[tactic(auto, unfolding(crate::specs::Entities::entity_at))]
fn entity<'t, 'a>(
    alloc: Global,
    words: &'t [Word<'a>],
) -> Result<(EntityClauses<'a>, &'t [Word<'a>]), Refusal>
    ensures { Gives (λ x. (plain_clauses x.0, words_of x.1.now)) result (entity_at (words_of words.now)) }
{
    let (name, rest) = name(words)?;
    let (inverse, rest) = if_inverses(alloc, behind_attributes(rest)?)?;
    let (unique, rest) = if_uniques(alloc, rest)?;
    let rest = symbol(entity_end(rest)?, b';')?;
    let clauses = EntityClauses {
        name,
        place: words.len(),
        inverse,
        unique,
    };
    Ok((clauses, rest))
}

/// The words after WHERE and its rules, if they are there, and END_TYPE.
#[tactic(auto, unfolding(crate::specs::Entities::type_end))]
fn type_end<'t, 'a>(words: &'t [Word<'a>]) -> Result<&'t [Word<'a>], Refusal>
    ensures { Gives (λ x. words_of x.now) result (type_end (words_of words.now)) }
{
    if begins_name(words, b"WHERE") {
        return behind(words, None, b"END_TYPE");
    }
    keyword(words, b"END_TYPE")
}

/// The words after a type, after the word TYPE; there are no entities in it.
#[tactic(auto, unfolding(crate::specs::Entities::type_at))]
fn skipped_type<'t, 'a>(
    words: &'t [Word<'a>],
) -> Result<(Option<EntityClauses<'a>>, &'t [Word<'a>]), Refusal>
    ensures { Gives (λ x. (none_or_one x.0, words_of x.1.now)) result (type_at (words_of words.now)) }
{
    let rest = symbol(type_end(behind_stop(words, b';')?)?, b';')?;
    Ok((None, rest))
}

/// The words after a declaration that is skipped, after its first word; there are no entities in it.
#[tactic(auto, unfolding(crate::specs::Entities::skipped_at))]
fn skipped<'t, 'a>(
    words: &'t [Word<'a>],
    again: Option<&[u8]>,
    last: &[u8],
) -> Result<(Option<EntityClauses<'a>>, &'t [Word<'a>]), Refusal>
    ensures { Gives (λ x. (none_or_one x.0, words_of x.1.now)) result (skipped_at (again_of again.entry) last.now (words_of words.now)) }
{
    let rest = symbol(behind(words, again, last)?, b';')?;
    Ok((None, rest))
}

/// A declaration: the clauses of an entity, or none.
#[tactic(auto, unfolding(crate::specs::Entities::declaration_at, crate::specs::Entities::one_entity_at))]
fn declaration<'t, 'a>(
    alloc: Global,
    words: &'t [Word<'a>],
) -> Result<(Option<EntityClauses<'a>>, &'t [Word<'a>]), Refusal>
    ensures { Gives (λ x. (none_or_one x.0, words_of x.1.now)) result (declaration_at (words_of words.now)) }
{
    let (first, rest) = name(words)?;
    match decl_word(first) {
        DeclWord::Entity => {
            let (clauses, rest) = entity(alloc, rest)?;
            Ok((Some(clauses), rest))
        }
        DeclWord::Type => skipped_type(rest),
        DeclWord::Function => skipped(rest, Some(b"FUNCTION"), b"END_FUNCTION"),
        DeclWord::Procedure => skipped(rest, Some(b"PROCEDURE"), b"END_PROCEDURE"),
        DeclWord::Rule => skipped(rest, None, b"END_RULE"),
        DeclWord::Constant => skipped(rest, None, b"END_CONSTANT"),
        DeclWord::Unsupported | DeclWord::Unknown => Err(Refusal::syntax(words.len())),
    }
}

/// Adds an entity, where there is one.
fn push<'a>(
    entities: &mut Vec<EntityClauses<'a>>,
    entity: Option<EntityClauses<'a>>,
) -> Result<(), AllocError>
    ensures { OnOk result (map plain_clauses entities.new.items ≡ map plain_clauses entities.old.items ++ none_or_one entity.entry) }
{
    if let Some(entity) = entity {
        entities.push(entity)?;
    }
    Ok(())
}

/// A semicolon and the entities of all declarations.
#[tactic(auto, unfolding(crate::specs::Entities::declarations_at))]
fn declarations<'t, 'a>(
    alloc: Global,
    words: &'t [Word<'a>],
) -> Result<(Vec<EntityClauses<'a>>, &'t [Word<'a>]), Refusal>
    ensures { Gives (λ x. (map plain_clauses x.0.items, words_of x.1.now)) result (declarations_at (words_of words.now)) }
{
    let mut rest = symbol(words, b';')?;
    let mut entities = Vec::new(alloc);
    while !begins_name(rest, b"END_SCHEMA") {
        let (entity, behind) = declaration(alloc, rest)?;
        push(&mut entities, entity)?;
        rest = behind;
    }
    Ok((entities, rest))
}

/// The clauses of the entities of a schema.
#[tactic(auto, unfolding(crate::specs::Entities::entities_at))]
pub(crate) fn entities<'a>(
    alloc: Global,
    words: &[Word<'a>],
) -> Result<Vec<EntityClauses<'a>>, Refusal>
    ensures { Gives (λ x. map plain_clauses x.items) result (entities_at (words_of words.now)) }
{
    let (_, rest) = name(keyword(words, b"SCHEMA")?)?;
    let (entities, rest) = declarations(alloc, rest)?;
    let rest = symbol(keyword(rest, b"END_SCHEMA")?, b';')?;
    if !rest.is_empty() {
        return Err(Refusal::syntax(rest.len()));
    }
    Ok(entities)
}
