//! Expressions with their names resolved.

ghost use Rattle.std.specs.Prelude.{◌≤◌, IfOk};

use crate::builtin::{Builtin, builtin_of, count_of};
use crate::comparison::{is_path, with_made};
use crate::obstacle::{Halt, Reason};
use crate::operators::{binary, interval, truth, unary};
use crate::scope::{DEEPEST, Scope};
use crate::strings::{Named, folded, named_by, names_elsewhere};
use crate::tables::{Called, Tables};
use p21_evaluate::{Combination, Construction, Literal, Making, Question, Term};
use p21_expression::{
    BinaryOperator, Constant, Element, Expression, Interval, Name, Operation, Qualifier,
};
use p21_names::{Role, Shape, number_of};
use p21_values::Item;
use std::alloc::Global;
use std::f64;

/// A term on the heap.
pub(crate) fn boxed<'a>(alloc: Global, term: Term<'a>) -> Result<Box<Term<'a>>, Halt> {
    match Box::new(alloc, term) {
        Ok(term) => Ok(term),
        Err(_full) => Err(Halt::Memory),
    }
}

/// One more term.
pub(crate) fn push<'a>(terms: &mut Vec<Term<'a>>, term: Term<'a>) -> Result<(), Halt> {
    match terms.push(term) {
        Ok(()) => Ok(()),
        Err(_full) => Err(Halt::Memory),
    }
}

/// What is asked of a term.
pub(crate) fn asked<'a>(alloc: Global, question: Question, of: Term<'a>) -> Result<Term<'a>, Halt> {
    Ok(Term::Ask(question, boxed(alloc, of)?))
}

/// The number of a place.
pub(crate) fn number(place: usize, at: usize) -> Result<u32, Halt> {
    match u32::try_from(place) {
        Ok(number) => Ok(number),
        Err(_) => Err(Halt::told(Reason::NotComputed, at)),
    }
}

/// An expression with its names resolved.
pub(crate) fn term<'a, 't>(
    tables: &Tables<'a, 't>,
    scope: &mut Scope<'a, 't>,
    tree: &Expression<'a>,
) -> Result<Term<'a>, Halt> {
    within(tables, scope, DEEPEST, tree)
}

/// What remains of so many terms that may stand within one another, behind some of them.
fn behind(scope: &Scope, left: usize, count: usize) -> Result<usize, Halt>
    ensures { IfOk result (λ r. r ≤ left) }
{
    match left.checked_sub(count) {
        Some(left) => Ok(left),
        None => Err(Halt::told(Reason::TooDeep, scope.place)),
    }
}

/// An expression with its names resolved, where so many terms may still stand within one another.
#[cycle(expressions)]
fn within<'a, 't>(
    tables: &Tables<'a, 't>,
    scope: &mut Scope<'a, 't>,
    left: usize,
    tree: &Expression<'a>,
) -> Result<Term<'a>, Halt> {
    scope.spend(1)?;
    if left == 0 {
        return Err(Halt::told(Reason::TooDeep, scope.place));
    }
    by_parts(tables, scope, left - 1, tree)
}

#[cycle(expressions)]
fn by_parts<'a, 't>(
    tables: &Tables<'a, 't>,
    scope: &mut Scope<'a, 't>,
    left: usize,
    tree: &Expression<'a>,
) -> Result<Term<'a>, Halt> {
    match tree {
        Expression::Integer(value, place) => integer(*value, *place),
        Expression::Real(place) => real(tables, scope, *place),
        Expression::Text(place) => text(tables, scope, *place),
        Expression::Binary(place) => binary_number(tables, scope, *place),
        Expression::Truth(value) => Ok(Term::Literal(Literal::Logical(truth(*value)))),
        Expression::Constant(value) => constant(scope, *value),
        Expression::Name(name) => named(tables, scope, *name),
        Expression::Call(name, parameters) => call(tables, scope, left, *name, parameters),
        Expression::Qualified(base, qualifiers) => qualified(tables, scope, left, base, qualifiers),
        Expression::Unary(operator, of) => {
            let of = within(tables, scope, left, of)?;
            Ok(Term::Apply(unary(*operator), boxed(tables.alloc, of)?))
        }
        Expression::Operations(first, operations) => {
            combined(tables, scope, left, tree, first, operations)
        }
        Expression::Aggregate(elements) => aggregate(tables, scope, left, elements),
        Expression::Interval(interval) => between(tables, scope, left, interval),
        Expression::Query(name, over, condition) => {
            query(tables, scope, left, *name, over, condition)
        }
    }
}

fn integer<'a>(value: Option<u64>, place: usize) -> Result<Term<'a>, Halt> {
    let Some(value) = value else {
        return Err(Halt::told(Reason::NotComputed, place));
    };
    match i64::try_from(value) {
        Ok(value) => Ok(Term::Literal(Literal::Integer(value))),
        Err(_) => Err(Halt::told(Reason::NotComputed, place)),
    }
}

/// The nearest number that there is. One that is too great is indeterminate.
fn real<'a, 't>(
    tables: &Tables<'a, 't>,
    scope: &mut Scope<'a, 't>,
    place: usize,
) -> Result<Term<'a>, Halt> {
    let literal = tables.source.literal(place);
    scope.spend_bytes(literal.len())?;
    let number: f64 = match fast_float::parse(literal) {
        Ok(number) => number,
        Err(_) => return Err(Halt::told(Reason::NotComputed, place)),
    };
    Ok(finite(number))
}

fn finite<'a>(number: f64) -> Term<'a> {
    if number.is_finite() {
        Term::Literal(Literal::Real(number))
    } else {
        Term::Literal(Literal::Indeterminate)
    }
}

fn binary_number<'a, 't>(
    tables: &Tables<'a, 't>,
    scope: &mut Scope<'a, 't>,
    place: usize,
) -> Result<Term<'a>, Halt> {
    let literal = tables.source.literal(place);
    scope.spend_bytes(literal.len())?;
    Ok(Term::Literal(Literal::Binary(bits(literal))))
}

/// The bits behind the `%` of a literal.
fn bits(literal: &[u8]) -> &[u8] {
    match literal.split_first() {
        Some((_, bits)) => bits,
        None => literal,
    }
}

fn text<'a, 't>(
    tables: &Tables<'a, 't>,
    scope: &mut Scope<'a, 't>,
    place: usize,
) -> Result<Term<'a>, Halt> {
    let Some(characters) = tables.texts.characters(tables.source, place) else {
        return Err(Halt::told(Reason::NotComputed, place));
    };
    scope.spend_bytes(characters.len())?;
    if names_elsewhere(tables, characters) {
        return Err(Halt::told(Reason::AnotherSchema, place));
    }
    Ok(Term::Literal(Literal::Text(characters)))
}

fn constant<'a, 't>(scope: &Scope<'a, 't>, value: Constant) -> Result<Term<'a>, Halt> {
    match value {
        Constant::Indeterminate => Ok(Term::Literal(Literal::Indeterminate)),
        Constant::Itself => Ok(Term::Local(scope.itself()?)),
        Constant::Pi => Ok(Term::Literal(Literal::Real(f64::consts::PI))),
        Constant::Euler => Ok(Term::Literal(Literal::Real(f64::consts::E))),
    }
}

/// A name that stands alone: a variable, an attribute of SELF, a constant or function, or an item, in this order.
fn named<'a, 't>(
    tables: &Tables<'a, 't>,
    scope: &mut Scope<'a, 't>,
    name: Name<'a>,
) -> Result<Term<'a>, Halt> {
    scope.spend_name(name.text)?;
    if let Some(variable) = scope.variable(name.text) {
        return Ok(Term::Local(variable.slot));
    }
    scope.spend(tables.meanings.count(name.text) / 8)?;
    if let Some(question) = own_attribute(tables, scope, name) {
        return asked(tables.alloc, question, Term::Local(scope.itself()?));
    }
    if let Some(function) = function_named(tables, name, 0)? {
        return called(
            tables,
            scope,
            name,
            Meant::Function(function),
            Vec::new(tables.alloc),
        );
    }
    if let Some(number) = tables.meanings.item(name.text) {
        return Ok(Term::Literal(Literal::Enumerated(Item {
            name: number,
            place: tables.meanings.only_item(number),
        })));
    }
    let instance = Meant::Instance(entity_number(tables, name)?);
    called(tables, scope, name, instance, Vec::new(tables.alloc))
}

/// The question for an attribute of SELF that is named alone.
fn own_attribute<'a, 't>(
    tables: &Tables<'a, 't>,
    scope: &Scope<'a, 't>,
    name: Name<'a>,
) -> Option<Question> {
    let entity = scope.entity?;
    let attribute = tables
        .meanings
        .attribute_of(tables.schema, entity, name.text)?;
    let place = u32::try_from(entity).ok()?;
    Some(Question::AttributeOf(place, attribute))
}

/// What a name with parameters means.
#[derive(Clone, Copy)]
enum Meant {
    Builtin(Builtin),
    /// The function at this place among the functions.
    Function(usize),
    /// An instance of this entity.
    Instance(u32),
}

/// What a name with so many parameters means.
fn meant_by(tables: &Tables, name: Name, count: usize) -> Result<Meant, Halt> {
    if let Some(builtin) = builtin_of(name.text) {
        return builtin_meant(builtin, name.place, count);
    }
    match function_named(tables, name, count)? {
        Some(function) => Ok(Meant::Function(function)),
        None => Ok(Meant::Instance(entity_number(tables, name)?)),
    }
}

fn builtin_meant(builtin: Builtin, place: usize, count: usize) -> Result<Meant, Halt> {
    match count_of(builtin) {
        Some(wanted) => {
            if wanted != count {
                return Err(Halt::told(Reason::WrongCount, place));
            }
            Ok(Meant::Builtin(builtin))
        }
        None => Err(Halt::told(Reason::NotComputed, place)),
    }
}

/// The place of the function or constant of a name, if there is one. It is to have so many parameters.
fn function_named(tables: &Tables, name: Name, count: usize) -> Result<Option<usize>, Halt> {
    let Some((place, called)) = tables.find(name.text) else {
        return Ok(None);
    };
    if parameter_count(called) != count {
        return Err(Halt::told(Reason::WrongCount, name.place));
    }
    Ok(Some(place))
}

fn parameter_count(called: Called) -> usize {
    match called {
        Called::Constant(_) => 0,
        Called::Function(routine) => {
            let mut count: usize = 0;
            for parameters in &routine.parameters {
                count = count.saturating_add(parameters.names.len());
            }
            count
        }
    }
}

/// What a name means with these values.
fn called<'a, 't>(
    tables: &Tables<'a, 't>,
    scope: &mut Scope<'a, 't>,
    name: Name<'a>,
    meant: Meant,
    values: Vec<Term<'a>>,
) -> Result<Term<'a>, Halt> {
    match meant {
        Meant::Builtin(builtin) => builtin_of_values(tables.alloc, builtin, name.place, values),
        Meant::Function(function) => {
            scope.called(function, name.place)?;
            Ok(Term::Call(function, values))
        }
        Meant::Instance(entity) => Ok(made(Construction::Instance(entity), values)),
    }
}

/// What a function that the language has makes of values.
fn builtin_of_values<'a>(
    alloc: Global,
    builtin: Builtin,
    place: usize,
    values: Vec<Term<'a>>,
) -> Result<Term<'a>, Halt> {
    let mut rest = values;
    let Some(last) = rest.pop() else {
        return Err(Halt::told(Reason::WrongCount, place));
    };
    match builtin {
        Builtin::Unary(operator) => Ok(Term::Apply(operator, boxed(alloc, last)?)),
        Builtin::Types => asked(alloc, Question::Types, last),
        Builtin::OrElse => match rest.pop() {
            Some(first) => pair(alloc, Combination::OrElse, first, last),
            None => Err(Halt::told(Reason::WrongCount, place)),
        },
        _ => Err(Halt::told(Reason::NotComputed, place)),
    }
}

/// What is called by a name.
#[cycle(expressions)]
fn call<'a, 't>(
    tables: &Tables<'a, 't>,
    scope: &mut Scope<'a, 't>,
    left: usize,
    name: Name<'a>,
    parameters: &[Expression<'a>],
) -> Result<Term<'a>, Halt> {
    scope.spend_name(name.text)?;
    let meant = meant_by(tables, name, parameters.len())?;
    if let Meant::Builtin(Builtin::Users) = meant {
        return users(tables, scope, left, name, parameters);
    }
    let values = terms(tables, scope, left, parameters)?;
    called(tables, scope, name, meant, values)
}

pub(crate) fn made<'a>(construction: Construction, values: Vec<Term<'a>>) -> Term<'a> {
    Term::Make(Making::Construction(construction), values)
}

/// Expressions one after the other.
#[cycle(expressions)]
fn terms<'a, 't>(
    tables: &Tables<'a, 't>,
    scope: &mut Scope<'a, 't>,
    left: usize,
    trees: &[Expression<'a>],
) -> Result<Vec<Term<'a>>, Halt> {
    let mut values = Vec::new(tables.alloc);
    for tree in trees {
        let value = within(tables, scope, left, tree)?;
        push(&mut values, value)?;
    }
    Ok(values)
}

/// What is made of two terms.
pub(crate) fn pair<'a>(
    alloc: Global,
    combination: Combination,
    left: Term<'a>,
    right: Term<'a>,
) -> Result<Term<'a>, Halt> {
    Ok(Term::Combine(combination, boxed(alloc, left)?, boxed(alloc, right)?))
}

/// USEDIN, of an instance and a role.
#[cycle(expressions)]
fn users<'a, 't>(
    tables: &Tables<'a, 't>,
    scope: &mut Scope<'a, 't>,
    left: usize,
    name: Name<'a>,
    parameters: &[Expression<'a>],
) -> Result<Term<'a>, Halt> {
    let (Some(of), Some(role)) = (parameters.first(), parameters.get(1)) else {
        return Err(Halt::told(Reason::WrongCount, name.place));
    };
    let of = within(tables, scope, left, of)?;
    match folded(tables, scope, left, role)? {
        Some(role) => users_by(tables, name.place, of, &role),
        None => Err(Halt::told(Reason::NotComputed, name.place)),
    }
}

/// The users of an instance by a role. A role that no attribute has is that of no instance.
fn users_by<'a>(
    tables: &Tables<'a, '_>,
    place: usize,
    of: Term<'a>,
    role: &[u8],
) -> Result<Term<'a>, Halt> {
    if role.is_empty() {
        return asked(tables.alloc, Question::Users(0), of);
    }
    match named_by(tables, role) {
        Named::Attribute(entity, attribute) => {
            let entity = number(entity.place(), place)?;
            match number_of(tables.meanings.names.len(), Role { entity, attribute }) {
                Some(number) => asked(tables.alloc, Question::Users(number), of),
                None => Err(Halt::told(Reason::NotComputed, place)),
            }
        }
        Named::Elsewhere => Err(Halt::told(Reason::AnotherSchema, place)),
        _ => Ok(Term::Make(Making::Initializer, Vec::new(tables.alloc))),
    }
}

/// Operations from the left.
#[cycle(expressions)]
fn combined<'a, 't>(
    tables: &Tables<'a, 't>,
    scope: &mut Scope<'a, 't>,
    left: usize,
    tree: &Expression<'a>,
    first: &Expression<'a>,
    operations: &[Operation<'a>],
) -> Result<Term<'a>, Halt> {
    let left = behind(scope, left, operations.len())?;
    if let Some(place) = untaken(first, operations) {
        return Err(Halt::told(Reason::NotComputed, place));
    }
    if let Some((place, of)) = types_asked(operations) {
        let tested = type_test(tables, scope, left, first, of, place)?;
        return operated(tables, scope, left, tested, operations, 1);
    }
    if names_another(tables, scope, left, tree)? {
        return Err(Halt::told(Reason::AnotherSchema, first_place(scope, operations)));
    }
    let first = within(tables, scope, left, first)?;
    operated(tables, scope, left, first, operations, 0)
}

/// The place of the first operation but IN that takes a value together with an aggregate of which the text does not spell each element: such a one is made as
/// a LIST, and so would be taken for one.
fn untaken(first: &Expression, operations: &[Operation]) -> Option<usize> {
    let mut has_repeated = is_repeated(first);
    let mut has_value = !is_initializer(first);
    for operation in operations {
        has_repeated = has_repeated || is_repeated(&operation.right);
        has_value = has_value || !is_initializer(&operation.right);
        if has_repeated && has_value && operation.operator != BinaryOperator::In {
            return Some(operation.place);
        }
    }
    None
}

/// Whether an expression is an aggregate that the text spells.
fn is_initializer(tree: &Expression) -> bool {
    match tree {
        Expression::Aggregate(_) => true,
        _ => false,
    }
}

/// Whether an expression is such an aggregate, of which the text does not spell each element.
fn is_repeated(tree: &Expression) -> bool {
    match tree {
        Expression::Aggregate(elements) => !has_no_count(elements),
        _ => false,
    }
}

/// The place of the first operation.
fn first_place(scope: &Scope, operations: &[Operation]) -> usize {
    match operations.first() {
        Some(operation) => operation.place,
        None => scope.place,
    }
}

/// Whether an expression is a string that names another schema.
fn names_another<'a, 't>(
    tables: &Tables<'a, 't>,
    scope: &mut Scope<'a, 't>,
    left: usize,
    tree: &Expression<'a>,
) -> Result<bool, Halt> {
    match folded(tables, scope, left, tree)? {
        Some(text) => Ok(names_elsewhere(tables, &text)),
        None => Ok(false),
    }
}

/// The operations from one on, on a term.
#[cycle(expressions)]
fn operated<'a, 't>(
    tables: &Tables<'a, 't>,
    scope: &mut Scope<'a, 't>,
    left: usize,
    first: Term<'a>,
    operations: &[Operation<'a>],
    from: usize,
) -> Result<Term<'a>, Halt> {
    let mut value = first;
    for at in from..operations.len() {
        let operation = &operations[at];
        let right = within(tables, scope, left, &operation.right)?;
        value = compared(tables, operation.operator, operation.place, value, right)?;
    }
    Ok(value)
}

/// An operation. A comparison with an instance that a constructor makes asks for its attributes.
fn compared<'a>(
    tables: &Tables<'a, '_>,
    operator: BinaryOperator,
    place: usize,
    left: Term<'a>,
    right: Term<'a>,
) -> Result<Term<'a>, Halt> {
    let is_equal = match operator {
        BinaryOperator::Equal => true,
        BinaryOperator::NotEqual => false,
        _ => return operation_of(tables.alloc, operator, place, left, right),
    };
    match (is_path(&left), is_path(&right)) {
        (true, false) => with_made(tables, is_equal, left, right),
        (false, true) => with_made(tables, is_equal, right, left),
        _ => operation_of(tables.alloc, operator, place, left, right),
    }
}

/// An operation.
fn operation_of<'a>(
    alloc: Global,
    operator: BinaryOperator,
    place: usize,
    left: Term<'a>,
    right: Term<'a>,
) -> Result<Term<'a>, Halt> {
    if operator == BinaryOperator::Combine {
        let mut values = Vec::new(alloc);
        push(&mut values, left)?;
        push(&mut values, right)?;
        return Ok(made(Construction::Joined, values));
    }
    match binary(operator) {
        Some(combination) => pair(alloc, combination, left, right),
        None => Err(Halt::told(Reason::NotComputed, place)),
    }
}

/// Of what the first operation asks whether something is IN TYPEOF of it, and where.
fn types_asked<'t, 'a>(operations: &'t [Operation<'a>]) -> Option<(usize, &'t Expression<'a>)> {
    let operation = operations.first()?;
    if operation.operator != BinaryOperator::In {
        return None;
    }
    Some((operation.place, types_of(&operation.right)?))
}

/// Of what an expression asks TYPEOF.
fn types_of<'t, 'a>(tree: &'t Expression<'a>) -> Option<&'t Expression<'a>> {
    match tree {
        Expression::Call(name, parameters) => {
            if name.text == b"TYPEOF".as_slice() && parameters.len() == 1 {
                parameters.first()
            } else {
                None
            }
        }
        _ => None,
    }
}

/// Whether something is of a type.
#[cycle(expressions)]
fn type_test<'a, 't>(
    tables: &Tables<'a, 't>,
    scope: &mut Scope<'a, 't>,
    left: usize,
    name: &Expression<'a>,
    of: &Expression<'a>,
    place: usize,
) -> Result<Term<'a>, Halt> {
    match type_named(tables, scope, left, name)? {
        Named::Elsewhere => Err(Halt::told(Reason::AnotherSchema, place)),
        Named::Entity(entity) => {
            let entity = number(entity.place(), place)?;
            let of = within(tables, scope, left, of)?;
            asked(tables.alloc, Question::IsEntity(entity), of)
        }
        _ => {
            let name = within(tables, scope, left, name)?;
            let of = within(tables, scope, left, of)?;
            let types = asked(tables.alloc, Question::Types, of)?;
            operation_of(tables.alloc, BinaryOperator::In, place, name, types)
        }
    }
}

/// What an expression names, where it is a string.
fn type_named<'a, 't>(
    tables: &Tables<'a, 't>,
    scope: &mut Scope<'a, 't>,
    left: usize,
    name: &Expression<'a>,
) -> Result<Named, Halt> {
    match folded(tables, scope, left, name)? {
        Some(text) => Ok(named_by(tables, &text)),
        None => Ok(Named::Nothing),
    }
}

/// An element of an aggregate, and how often it stands there, where the text does not spell it so often.
#[derive(Drop)]
struct Member<'a> {
    value: Term<'a>,
    count: Option<Term<'a>>,
}

/// An aggregate of elements.
#[cycle(expressions)]
fn aggregate<'a, 't>(
    tables: &Tables<'a, 't>,
    scope: &mut Scope<'a, 't>,
    left: usize,
    elements: &[Element<'a>],
) -> Result<Term<'a>, Halt> {
    if has_no_count(elements) {
        let mut values = Vec::new(tables.alloc);
        for element in elements {
            let member = member_of(tables, scope, left, element)?;
            push(&mut values, member.value)?;
        }
        return Ok(Term::Make(Making::Initializer, values));
    }
    let left = behind(scope, left, elements.len())?;
    let mut all = empty_list(tables, scope)?;
    for element in elements {
        let member = member_of(tables, scope, left, element)?;
        all = with_member(tables, all, member)?;
    }
    Ok(all)
}

/// Whether each element stands there once.
fn has_no_count(elements: &[Element]) -> bool {
    for element in elements {
        if let Element::Repeated(_, _) = element {
            return false;
        }
    }
    true
}

#[cycle(expressions)]
fn member_of<'a, 't>(
    tables: &Tables<'a, 't>,
    scope: &mut Scope<'a, 't>,
    left: usize,
    element: &Element<'a>,
) -> Result<Member<'a>, Halt> {
    match element {
        Element::Once(tree) => Ok(Member {
            value: within(tables, scope, left, tree)?,
            count: None,
        }),
        Element::Repeated(tree, count) => Ok(Member {
            value: within(tables, scope, left, tree)?,
            count: Some(within(tables, scope, left, count)?),
        }),
    }
}

/// The LIST without elements.
fn empty_list<'a, 't>(tables: &Tables<'a, 't>, scope: &Scope<'a, 't>) -> Result<Term<'a>, Halt> {
    let types = tables.schema.declared().types.len();
    let place = types.saturating_add(Shape::List.place());
    let of = number(place, scope.place)?;
    let mut start = Vec::new(tables.alloc);
    push(
        &mut start,
        Term::Make(Making::Initializer, Vec::new(tables.alloc)),
    )?;
    Ok(made(Construction::Typed(of), start))
}

/// A LIST with a further element, perhaps several times.
fn with_member<'a>(
    tables: &Tables<'a, '_>,
    all: Term<'a>,
    member: Member<'a>,
) -> Result<Term<'a>, Halt> {
    let Member { value, count } = member;
    match count {
        None => with_last(tables.alloc, all, value),
        Some(count) => {
            let mut values = Vec::new(tables.alloc);
            push(&mut values, all)?;
            push(&mut values, value)?;
            push(&mut values, count)?;
            Ok(Term::Call(tables.algorithms.places.len(), values))
        }
    }
}

/// A LIST with a further element.
pub(crate) fn with_last<'a>(
    alloc: Global,
    all: Term<'a>,
    value: Term<'a>,
) -> Result<Term<'a>, Halt> {
    let mut values = Vec::new(alloc);
    push(&mut values, value)?;
    let last = Term::Make(Making::Initializer, values);
    pair(
        alloc,
        Combination::Operator(p21_values::BinaryOperator::Add),
        all,
        last,
    )
}

/// An interval.
#[cycle(expressions)]
fn between<'a, 't>(
    tables: &Tables<'a, 't>,
    scope: &mut Scope<'a, 't>,
    left: usize,
    within_it: &Interval<'a>,
) -> Result<Term<'a>, Halt> {
    let low = within(tables, scope, left, &within_it.low)?;
    let item = within(tables, scope, left, &within_it.item)?;
    let high = within(tables, scope, left, &within_it.high)?;
    let making = Making::Interval(interval(within_it.above), interval(within_it.below));
    three(tables.alloc, making, low, item, high)
}

/// What is made of three terms.
fn three<'a>(
    alloc: Global,
    making: Making,
    first: Term<'a>,
    second: Term<'a>,
    third: Term<'a>,
) -> Result<Term<'a>, Halt> {
    let mut values = Vec::new(alloc);
    push(&mut values, first)?;
    push(&mut values, second)?;
    push(&mut values, third)?;
    Ok(Term::Make(making, values))
}

/// A QUERY.
#[cycle(expressions)]
fn query<'a, 't>(
    tables: &Tables<'a, 't>,
    scope: &mut Scope<'a, 't>,
    left: usize,
    name: Name<'a>,
    over: &Expression<'a>,
    condition: &Expression<'a>,
) -> Result<Term<'a>, Halt> {
    let over = within(tables, scope, left, over)?;
    scope.enter(name.text)?;
    let condition = within(tables, scope, left, condition)?;
    scope.leave();
    Ok(Term::Query(boxed(tables.alloc, over)?, boxed(tables.alloc, condition)?))
}

/// What qualifiers read of a base, or the item of an enumeration that is named first.
#[cycle(expressions)]
fn qualified<'a, 't>(
    tables: &Tables<'a, 't>,
    scope: &mut Scope<'a, 't>,
    left: usize,
    base: &Expression<'a>,
    qualifiers: &[Qualifier<'a>],
) -> Result<Term<'a>, Halt> {
    let left = behind(scope, left, qualifiers.len())?;
    if let Some(item) = qualified_item(tables, scope, base, qualifiers)? {
        let item = Term::Literal(Literal::Enumerated(item));
        return read_from(tables, scope, left, item, qualifiers, 1);
    }
    let base = within(tables, scope, left, base)?;
    read_from(tables, scope, left, base, qualifiers, 0)
}

/// The item after the name of its enumeration.
fn qualified_item<'a, 't>(
    tables: &Tables<'a, 't>,
    scope: &mut Scope<'a, 't>,
    base: &Expression<'a>,
    qualifiers: &[Qualifier<'a>],
) -> Result<Option<Item>, Halt> {
    let (Expression::Name(enumeration), Some(Qualifier::Attribute(item))) = (
        base,
        qualifiers.first(),
    ) else {
        return Ok(None);
    };
    scope.spend_name(enumeration.text)?;
    if scope.variable(enumeration.text).is_some() {
        return Ok(None);
    }
    scope.spend(tables.meanings.count(item.text) / 8)?;
    Ok(item_in(tables, *enumeration, *item))
}

/// The item of an enumeration.
fn item_in(tables: &Tables, enumeration: Name, item: Name) -> Option<Item> {
    let id = tables.schema.type_named(enumeration.text)?;
    let number = tables.meanings.item(item.text)?;
    let place = tables
        .meanings
        .item_of(number, u32::try_from(id.place()).ok()?)?;
    Some(Item {
        name: number,
        place: Some(place),
    })
}

/// What the first so many qualifiers read of a term, from the left.
pub(crate) fn read<'a, 't>(
    tables: &Tables<'a, 't>,
    scope: &mut Scope<'a, 't>,
    base: Term<'a>,
    qualifiers: &[Qualifier<'a>],
) -> Result<Term<'a>, Halt> {
    let left = behind(scope, DEEPEST, qualifiers.len())?;
    read_from(tables, scope, left, base, qualifiers, 0)
}

/// What the qualifiers from one on read of a term, from the left.
#[cycle(expressions)]
fn read_from<'a, 't>(
    tables: &Tables<'a, 't>,
    scope: &mut Scope<'a, 't>,
    left: usize,
    base: Term<'a>,
    qualifiers: &[Qualifier<'a>],
    from: usize,
) -> Result<Term<'a>, Halt> {
    let mut value = base;
    let mut group = None;
    for at in from..qualifiers.len() {
        scope.spend(1)?;
        value = read_one(tables, scope, left, group, value, &qualifiers[at])?;
        group = group_named(tables, &qualifiers[at])?;
    }
    grouped(tables.alloc, group, value)
}

/// What a qualifier reads of a term, behind a group where one is named there. A group itself reads nothing yet.
#[cycle(expressions)]
fn read_one<'a, 't>(
    tables: &Tables<'a, 't>,
    scope: &mut Scope<'a, 't>,
    left: usize,
    group: Option<u32>,
    value: Term<'a>,
    qualifier: &Qualifier<'a>,
) -> Result<Term<'a>, Halt> {
    match qualifier {
        Qualifier::Attribute(name) => {
            let question = attribute_question(tables, group, *name)?;
            asked(tables.alloc, question, value)
        }
        Qualifier::Group(_) => grouped(tables.alloc, group, value),
        Qualifier::Index(at) => {
            let value = grouped(tables.alloc, group, value)?;
            let at = within(tables, scope, left, at)?;
            pair(tables.alloc, Combination::Element, value, at)
        }
        Qualifier::Range(from, to) => {
            let value = grouped(tables.alloc, group, value)?;
            let from = within(tables, scope, left, from)?;
            let to = within(tables, scope, left, to)?;
            three(tables.alloc, Making::Part, value, from, to)
        }
    }
}

/// The entity that a qualifier names as a group.
fn group_named(tables: &Tables, qualifier: &Qualifier) -> Result<Option<u32>, Halt> {
    match qualifier {
        Qualifier::Group(name) => Ok(Some(entity_number(tables, *name)?)),
        _ => Ok(None),
    }
}

/// A value as one of an entity, where one is named.
fn grouped<'a>(alloc: Global, group: Option<u32>, value: Term<'a>) -> Result<Term<'a>, Halt> {
    match group {
        Some(entity) => asked(alloc, Question::Group(entity), value),
        None => Ok(value),
    }
}

/// The number of an entity that is named.
pub(crate) fn entity_number(tables: &Tables, name: Name) -> Result<u32, Halt> {
    match tables.schema.entity(name.text) {
        Some(entity) => number(entity.place(), name.place),
        None => Err(Halt::told(Reason::UnknownName, name.place)),
    }
}

/// The question for an attribute, perhaps as one of an entity.
fn attribute_question(tables: &Tables, group: Option<u32>, name: Name) -> Result<Question, Halt> {
    let Some(attribute) = tables.meanings.attribute(name.text) else {
        return Err(Halt::told(Reason::UnknownName, name.place));
    };
    match group {
        Some(entity) => Ok(Question::AttributeOf(entity, attribute)),
        None => Ok(Question::Attribute(attribute)),
    }
}
