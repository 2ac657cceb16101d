//! Statements with their names resolved.

ghost use Rattle.p21_schema.specs.Place.{IsTypeOf};

use crate::expressions::{made, push, read, term};
use crate::obstacle::{Halt, Reason};
use crate::scope::Scope;
use crate::tables::Tables;
use p21_algorithm::{
    Action, AggregateKind, Control, Increment, Layer, SimpleType, Statement as Written, Target,
    TypeTree,
};
use p21_evaluate::{Construction, Label, Literal, Making, Statement, Term};
use p21_expression::{Expression, Name, Qualifier};
use p21_names::Shape;
use p21_schema::{Resolved, Schema, TypeId};
use p21_values::Truth;
use std::alloc::Global;

/// The most statements that may stand within one another.
pub(crate) const NESTED: usize = 256;

/// The most qualifiers of what a value is assigned to.
const MOST_QUALIFIERS: usize = 16;

/// How many REPEATs stand in statements, where so many statements may stand within one another.
#[cycle(repeats)]
pub(crate) fn repeats(left: usize, statements: &[Written]) -> usize {
    let mut count: usize = 0;
    for statement in statements {
        count = count.saturating_add(repeats_in(left, statement));
    }
    count
}

#[cycle(repeats)]
fn repeats_in(left: usize, statement: &Written) -> usize {
    if left == 0 {
        return 0;
    }
    match statement {
        Written::If(_, then, otherwise) => {
            repeats(left - 1, then).saturating_add(repeats(left - 1, otherwise))
        }
        Written::Case(_, actions, otherwise) => {
            let count = match otherwise {
                Some(statement) => repeats_in(left - 1, statement),
                None => 0,
            };
            count.saturating_add(repeats_in_actions(left - 1, actions))
        }
        Written::Repeat(_, body) => repeats(left - 1, body).saturating_add(1),
        Written::Alias(_, _, body) => repeats(left - 1, body),
        Written::Compound(body) => repeats(left - 1, body),
        _ => 0,
    }
}

#[cycle(repeats)]
fn repeats_in_actions(left: usize, actions: &[Action]) -> usize {
    let mut count: usize = 0;
    for action in actions {
        count = count.saturating_add(repeats_in(left, &action.statement));
    }
    count
}

/// One more statement.
pub(crate) fn add<'a>(
    statements: &mut Vec<Statement<'a>>,
    statement: Statement<'a>,
) -> Result<(), Halt> {
    match statements.push(statement) {
        Ok(()) => Ok(()),
        Err(_full) => Err(Halt::Memory),
    }
}

/// Statements one after the other.
pub(crate) fn statements<'a, 't>(
    tables: &Tables<'a, 't>,
    scope: &mut Scope<'a, 't>,
    trees: &[Written<'a>],
) -> Result<Vec<Statement<'a>>, Halt> {
    several(tables, scope, NESTED, trees)
}

/// Statements one after the other, where so many may still stand within one another.
#[cycle(statements)]
fn several<'a, 't>(
    tables: &Tables<'a, 't>,
    scope: &mut Scope<'a, 't>,
    left: usize,
    trees: &[Written<'a>],
) -> Result<Vec<Statement<'a>>, Halt> {
    let mut resolved = Vec::new(tables.alloc);
    for tree in trees {
        let next = statement(tables, scope, left, tree)?;
        add(&mut resolved, next)?;
    }
    Ok(resolved)
}

#[cycle(statements)]
fn statement<'a, 't>(
    tables: &Tables<'a, 't>,
    scope: &mut Scope<'a, 't>,
    left: usize,
    tree: &Written<'a>,
) -> Result<Statement<'a>, Halt> {
    if left == 0 {
        return Err(Halt::told(Reason::TooDeep, scope.place));
    }
    by_kind(tables, scope, left - 1, tree)
}

#[cycle(statements)]
fn by_kind<'a, 't>(
    tables: &Tables<'a, 't>,
    scope: &mut Scope<'a, 't>,
    left: usize,
    tree: &Written<'a>,
) -> Result<Statement<'a>, Halt> {
    match tree {
        Written::Null(_) => Ok(Statement::Block(Vec::new(tables.alloc))),
        Written::Assign(target, value) => assignment(tables, scope, target, value),
        Written::Call(name, _) => Err(Halt::told(Reason::NotComputed, name.place)),
        Written::If(condition, then, otherwise) => {
            let condition = term(tables, scope, condition)?;
            let then = several(tables, scope, left, then)?;
            let otherwise = several(tables, scope, left, otherwise)?;
            Ok(Statement::If(condition, then, otherwise))
        }
        Written::Case(selector, actions, otherwise) => {
            let selector = term(tables, scope, selector)?;
            let labels = labels(tables, scope, actions)?;
            let mut bodies = bodies(tables, scope, left, actions)?;
            if let Some(tree) = otherwise {
                let body = statement(tables, scope, left, tree)?;
                add(&mut bodies, body)?;
            }
            Ok(Statement::Case(selector, labels, actions.len(), bodies))
        }
        Written::Repeat(control, body) => repeat(tables, scope, left, control, body),
        Written::Alias(name, _, _) => Err(Halt::told(Reason::NotComputed, name.place)),
        Written::Compound(body) => Ok(Statement::Block(several(tables, scope, left, body)?)),
        Written::Return(_, value) => returned(tables, scope, value.as_ref()),
        Written::Skip(_) => Ok(Statement::Skip),
        Written::Escape(_) => Ok(Statement::Escape),
    }
}

/// The statements of actions.
#[cycle(statements)]
fn bodies<'a, 't>(
    tables: &Tables<'a, 't>,
    scope: &mut Scope<'a, 't>,
    left: usize,
    actions: &[Action<'a>],
) -> Result<Vec<Statement<'a>>, Halt> {
    let mut bodies = Vec::new(tables.alloc);
    for action in actions {
        let body = statement(tables, scope, left, &action.statement)?;
        add(&mut bodies, body)?;
    }
    Ok(bodies)
}

/// The labels of actions, each with the place of its action.
fn labels<'a, 't>(
    tables: &Tables<'a, 't>,
    scope: &mut Scope<'a, 't>,
    actions: &[Action<'a>],
) -> Result<Vec<Label<'a>>, Halt> {
    let mut resolved = Vec::new(tables.alloc);
    for place in 0..actions.len() {
        for tree in &actions[place].labels {
            let value = term(tables, scope, tree)?;
            if resolved.push(Label { value, place }).is_err() {
                return Err(Halt::Memory);
            }
        }
    }
    Ok(resolved)
}

/// RETURN, perhaps with a value, which is given to the result.
fn returned<'a, 't>(
    tables: &Tables<'a, 't>,
    scope: &mut Scope<'a, 't>,
    value: Option<&Expression<'a>>,
) -> Result<Statement<'a>, Halt> {
    match value {
        None => Ok(Statement::Return(Term::Literal(Literal::Indeterminate))),
        Some(tree) => {
            let value = term(tables, scope, tree)?;
            let result = scope.result;
            Ok(Statement::Return(given(tables, scope, result, value)?))
        }
    }
}

/// A variable is given a value, or another one of which a part is that value.
fn assignment<'a, 't>(
    tables: &Tables<'a, 't>,
    scope: &mut Scope<'a, 't>,
    target: &Target<'a>,
    value: &Expression<'a>,
) -> Result<Statement<'a>, Halt> {
    scope.spend_name(target.name.text)?;
    let Some(variable) = scope.variable(target.name.text) else {
        return Err(Halt::told(Reason::UnknownName, target.name.place));
    };
    if target.qualifiers.len() > MOST_QUALIFIERS {
        return Err(Halt::told(Reason::TooLarge, target.name.place));
    }
    let mut value = term(tables, scope, value)?;
    if target.qualifiers.is_empty() {
        value = given(tables, scope, variable.of, value)?;
    }
    for at in (0..target.qualifiers.len()).rev() {
        value = with_part(tables, scope, variable.slot, target, at, value)?;
    }
    Ok(Statement::Assign(variable.slot, value))
}

/// What the qualifiers before a place read of a variable, where a part of that, which the qualifier there names, is another value.
fn with_part<'a, 't>(
    tables: &Tables<'a, 't>,
    scope: &mut Scope<'a, 't>,
    slot: usize,
    target: &Target<'a>,
    at: usize,
    value: Term<'a>,
) -> Result<Term<'a>, Halt> {
    match target.qualifiers.get(at) {
        Some(Qualifier::Attribute(name)) => {
            let Some(attribute) = tables.meanings.attribute(name.text) else {
                return Err(Halt::told(Reason::UnknownName, name.place));
            };
            let mut values = Vec::new(tables.alloc);
            push(&mut values, before(tables, scope, slot, target, at)?)?;
            push(&mut values, value)?;
            Ok(made(Construction::WithAttribute(attribute), values))
        }
        Some(Qualifier::Index(index)) => {
            let mut values = Vec::new(tables.alloc);
            push(&mut values, before(tables, scope, slot, target, at)?)?;
            push(&mut values, term(tables, scope, index)?)?;
            push(&mut values, value)?;
            Ok(Term::Make(Making::WithElement, values))
        }
        Some(Qualifier::Range(_, _)) => Err(Halt::told(Reason::NotComputed, target.name.place)),
        Some(Qualifier::Group(_)) | None => Ok(value),
    }
}

/// What the qualifiers before a place read of a variable. Groups at their end read nothing.
fn before<'a, 't>(
    tables: &Tables<'a, 't>,
    scope: &mut Scope<'a, 't>,
    slot: usize,
    target: &Target<'a>,
    at: usize,
) -> Result<Term<'a>, Halt> {
    let count = without_groups(&target.qualifiers, at);
    match target.qualifiers.get(..count) {
        Some(qualifiers) => read(tables, scope, Term::Local(slot), qualifiers),
        None => Ok(Term::Local(slot)),
    }
}

/// How many of the first so many qualifiers stand before the groups at their end.
fn without_groups(qualifiers: &[Qualifier], count: usize) -> usize {
    for at in (0..count).rev() {
        match qualifiers.get(at) {
            Some(Qualifier::Group(_)) => {}
            _ => return at.saturating_add(1),
        }
    }
    0
}

/// A value as it is given to what is declared of a type.
pub(crate) fn given<'a, 't>(
    tables: &Tables<'a, 't>,
    scope: &mut Scope<'a, 't>,
    of: Option<&'t TypeTree<'a>>,
    value: Term<'a>,
) -> Result<Term<'a>, Halt> {
    match of {
        None => Ok(value),
        Some(TypeTree::Simple(SimpleType::Real, _)) => shaped(tables, scope, Shape::Real, value),
        Some(TypeTree::Simple(_, _)) => Ok(value),
        Some(TypeTree::Named(name)) => typed(tables, *name, value),
        Some(TypeTree::Aggregation(layer, _)) => match layer.kind {
            AggregateKind::Array => array(tables, scope, layer, value),
            AggregateKind::Bag => shaped(tables, scope, Shape::Bag, value),
            AggregateKind::List => shaped(tables, scope, Shape::List, value),
            AggregateKind::Set => shaped(tables, scope, Shape::Set, value),
        },
        Some(TypeTree::Aggregate(_, _)) => Ok(value),
        Some(TypeTree::Generic(_)) => Ok(value),
        Some(TypeTree::GenericEntity(_)) => Ok(value),
    }
}

/// Whether values change where they are given to what is declared of a type.
pub(crate) fn is_changed(tables: &Tables, of: &TypeTree) -> bool {
    match of {
        TypeTree::Simple(SimpleType::Real, _) => true,
        TypeTree::Simple(_, _) => false,
        TypeTree::Named(name) => match tables.schema.type_named(name.text) {
            Some(id) => is_plain(tables.schema, id),
            None => false,
        },
        TypeTree::Aggregation(_, _) => true,
        TypeTree::Aggregate(_, _) => false,
        TypeTree::Generic(_) => false,
        TypeTree::GenericEntity(_) => false,
    }
}

/// Whether a type is neither an ENUMERATION nor a SELECT.
fn is_plain(schema: &Schema, id: TypeId) -> bool
    requires { IsTypeOf schema.now id }
{
    matches!(schema.under(id), Resolved::Plain(_))
}

/// A value of a named type.
fn typed<'a>(tables: &Tables<'a, '_>, name: Name<'a>, value: Term<'a>) -> Result<Term<'a>, Halt> {
    match tables.schema.type_named(name.text) {
        Some(id) => {
            if !is_plain(tables.schema, id) {
                return Ok(value);
            }
            alone(tables.alloc, id.place(), name.place, value)
        }
        None => {
            if tables.schema.entity(name.text).is_none() {
                return Err(Halt::told(Reason::UnknownName, name.place));
            }
            Ok(value)
        }
    }
}

/// A value of the type of a number.
fn alone<'a>(alloc: Global, of: usize, place: usize, value: Term<'a>) -> Result<Term<'a>, Halt> {
    let Ok(number) = u32::try_from(of) else {
        return Err(Halt::told(Reason::NotComputed, place));
    };
    let mut values = Vec::new(alloc);
    push(&mut values, value)?;
    Ok(made(Construction::Typed(number), values))
}

/// A value of a shape.
fn shaped<'a, 't>(
    tables: &Tables<'a, 't>,
    scope: &Scope<'a, 't>,
    shape: Shape,
    value: Term<'a>,
) -> Result<Term<'a>, Halt> {
    let types = tables.schema.declared().types.len();
    alone(
        tables.alloc,
        types.saturating_add(shape.place()),
        scope.place,
        value,
    )
}

/// An ARRAY from one index to another, where they are declared.
fn array<'a, 't>(
    tables: &Tables<'a, 't>,
    scope: &mut Scope<'a, 't>,
    layer: &Layer<'a>,
    value: Term<'a>,
) -> Result<Term<'a>, Halt> {
    let Some(bounds) = &layer.bounds else {
        return shaped(tables, scope, Shape::Array, value);
    };
    let types = tables.schema.declared().types.len();
    let Ok(number) = u32::try_from(types.saturating_add(Shape::Array.place())) else {
        return Err(Halt::told(Reason::NotComputed, scope.place));
    };
    let mut values = Vec::new(tables.alloc);
    push(&mut values, value)?;
    push(&mut values, term(tables, scope, &bounds.low)?)?;
    push(&mut values, term(tables, scope, &bounds.high)?)?;
    Ok(made(Construction::Typed(number), values))
}

/// REPEAT. Where nothing counts its turns, a variable of no name does.
#[cycle(statements)]
fn repeat<'a, 't>(
    tables: &Tables<'a, 't>,
    scope: &mut Scope<'a, 't>,
    left: usize,
    control: &Control<'a>,
    body: &[Written<'a>],
) -> Result<Statement<'a>, Halt> {
    let turns = turns_of(tables, scope, control.increment.as_ref())?;
    let slot = scope.declare(turns.name, None)?;
    let condition = condition_or(tables, scope, control.condition.as_ref(), Truth::True)?;
    let until = condition_or(tables, scope, control.until.as_ref(), Truth::False)?;
    let body = several(tables, scope, left, body)?;
    scope.forget();
    Ok(Statement::Repeat(slot, turns.from, turns.to, turns.by, condition, until, body))
}

/// What a REPEAT counts by.
#[derive(Drop)]
struct Turns<'a> {
    name: &'a [u8],
    from: Term<'a>,
    to: Term<'a>,
    by: Term<'a>,
}

/// The integers of a REPEAT: from 1 on where it names none.
fn turns_of<'a, 't>(
    tables: &Tables<'a, 't>,
    scope: &mut Scope<'a, 't>,
    increment: Option<&Increment<'a>>,
) -> Result<Turns<'a>, Halt> {
    let one = Term::Literal(Literal::Integer(1));
    match increment {
        None => Ok(Turns {
            name: &[],
            from: Term::Literal(Literal::Integer(1)),
            to: Term::Literal(Literal::Integer(i64::MAX)),
            by: one,
        }),
        Some(increment) => Ok(Turns {
            name: increment.name.text,
            from: term(tables, scope, &increment.from)?,
            to: term(tables, scope, &increment.to)?,
            by: match &increment.by {
                Some(by) => term(tables, scope, by)?,
                None => one,
            },
        }),
    }
}

/// A condition, or a truth where none is written.
fn condition_or<'a, 't>(
    tables: &Tables<'a, 't>,
    scope: &mut Scope<'a, 't>,
    tree: Option<&Expression<'a>>,
    otherwise: Truth,
) -> Result<Term<'a>, Halt> {
    match tree {
        Some(tree) => term(tables, scope, tree),
        None => Ok(Term::Literal(Literal::Logical(otherwise))),
    }
}
