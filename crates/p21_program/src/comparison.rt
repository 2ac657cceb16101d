//! Comparisons with an instance that a constructor makes.

ghost use Rattle.p21_schema.specs.Place.{IsEntityOf};

use crate::expressions::{asked, number, pair};
use crate::obstacle::Halt;
use crate::tables::Tables;
use p21_evaluate::{Combination, Construction, Literal, Making, Question, Term};
use p21_schema::{EntityId, Schema};
use p21_values::{BinaryOperator, Truth, UnaryOperator};
use std::alloc::Global;

/// How many questions a path may ask of a variable.
const LONGEST: usize = 8;

/// Whether a term reads of a variable alone, and not by too many questions.
pub(crate) fn is_path(term: &Term) -> bool {
    let mut rest = term;
    for _question in 0..LONGEST {
        match rest {
            Term::Local(_) => return true,
            Term::Ask(_, of) => rest = of,
            _ => return false,
        }
    }
    false
}

/// The same path once more.
fn copied<'a>(alloc: Global, path: &Term<'a>, length: usize) -> Result<Term<'a>, Halt> {
    match path {
        Term::Local(slot) => Ok(Term::Local(*slot)),
        Term::Ask(question, of) => {
            if length == 0 {
                return Ok(Term::Literal(Literal::Indeterminate));
            }
            let of = copied(alloc, of, length - 1)?;
            asked(alloc, *question, of)
        }
        _ => Ok(Term::Literal(Literal::Indeterminate)),
    }
}

/// Whether a path reads the same as a term, or not the same. Where the term is the constructor of an entity, the path is to read an instance of this entity that
/// has the same attributes.
pub(crate) fn with_made<'a>(
    tables: &Tables<'a, '_>,
    is_equal: bool,
    path: Term<'a>,
    other: Term<'a>,
) -> Result<Term<'a>, Halt> {
    match other {
        Term::Make(Making::Construction(Construction::Instance(entity)), values) => {
            let found = match tables.schema.entity_at(entity as usize) {
                Some(id) => equal_attributes(tables, id, entity, path, values)?,
                None => Term::Literal(Literal::Indeterminate),
            };
            if is_equal {
                Ok(found)
            } else {
                negated(tables.alloc, found)
            }
        }
        other => {
            let operator = if is_equal {
                BinaryOperator::Equal
            } else {
                BinaryOperator::NotEqual
            };
            pair(tables.alloc, Combination::Operator(operator), path, other)
        }
    }
}

fn negated<'a>(alloc: Global, term: Term<'a>) -> Result<Term<'a>, Halt> {
    Ok(Term::Apply(UnaryOperator::Not, crate::expressions::boxed(alloc, term)?))
}

/// Whether a path reads an instance of an entity that has these values as those attributes that the entity declares. Attributes that it inherits have no value in
/// what its constructor makes.
fn equal_attributes<'a>(
    tables: &Tables<'a, '_>,
    id: EntityId,
    entity: u32,
    path: Term<'a>,
    values: Vec<Term<'a>>,
) -> Result<Term<'a>, Halt>
    requires { IsEntityOf tables.now.schema.now id }
{
    let alloc = tables.alloc;
    let of = copied(alloc, &path, LONGEST)?;
    let mut all = asked(alloc, Question::IsExactly(entity), of)?;
    if tables.schema.row_count(id) > tables.schema.own_count(id) {
        all = both(alloc, all, Term::Literal(Literal::Logical(Truth::Unknown)))?;
    }
    let mut place: usize = 0;
    for value in values {
        let attribute = own_name(tables, tables.schema, id, place, entity)?;
        let of = copied(alloc, &path, LONGEST)?;
        let own = asked(alloc, Question::AttributeOf(entity, attribute), of)?;
        let equal = pair(
            alloc,
            Combination::Operator(BinaryOperator::Equal),
            own,
            value,
        )?;
        all = both(alloc, all, equal)?;
        place = place.saturating_add(1);
    }
    Ok(all)
}

fn both<'a>(alloc: Global, all: Term<'a>, more: Term<'a>) -> Result<Term<'a>, Halt> {
    pair(alloc, Combination::Operator(BinaryOperator::And), all, more)
}

/// The number of the name of the attribute at a place among those that an entity newly declares.
fn own_name(
    tables: &Tables,
    schema: &Schema,
    id: EntityId,
    place: usize,
    entity: u32,
) -> Result<u32, Halt> {
    let mut left = place;
    if let Some(declared) = schema.declared().entities.get(id.place()) {
        for attribute in &declared.attributes {
            if attribute.of.is_none() {
                if left == 0 {
                    return match tables.meanings.attribute(&attribute.name) {
                        Some(number) => Ok(number),
                        None => number(entity as usize, 0),
                    };
                }
                left -= 1;
            }
        }
    }
    // A constructor with too many values: no attribute has this number.
    Ok(u32::MAX)
}
