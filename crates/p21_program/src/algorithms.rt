//! Functions, constants, derived attributes and rules with their names resolved.

use crate::expressions::{entity_number, push, term, with_last};
use crate::obstacle::{Halt, Reason};
use crate::scope::{Call, Scope};
use crate::statements::{NESTED, add, given, is_changed, repeats, statements};
use crate::tables::Tables;
use p21_algorithm::{
    AggregateKind, Block, ConstantTree, Derived, GlobalRule, Routine, TypeTree, Variables,
};
use p21_evaluate::{Function, Literal, Statement, Term};
use p21_expression::{DomainRule, Expression};
use p21_values::Truth;
use std::alloc::Global;

/// A function, and what it calls.
#[derive(Drop)]
pub(crate) struct ResolvedFunction<'a> {
    pub(crate) function: Function<'a>,
    pub(crate) calls: Vec<Call>,
}

/// A condition, and what it calls.
#[derive(Drop)]
pub(crate) struct ResolvedTerm<'a> {
    pub(crate) term: Term<'a>,
    pub(crate) calls: Vec<Call>,
}

/// The condition of a rule over SELF, which is of an entity where one is given.
pub(crate) fn condition_of_self<'a>(
    tables: &Tables<'a, '_>,
    place: usize,
    entity: Option<usize>,
    rule: &DomainRule<'a>,
) -> Result<ResolvedTerm<'a>, Halt> {
    let mut scope = Scope::of_self(tables.alloc, place, entity);
    let term = term(tables, &mut scope, &rule.condition)?;
    Ok(ResolvedTerm {
        term,
        calls: scope.calls,
    })
}

/// The function of SELF that a derived attribute is.
pub(crate) fn derivation<'a, 't>(
    tables: &Tables<'a, 't>,
    place: usize,
    entity: Option<usize>,
    derived: &'t Derived<'a>,
) -> Result<ResolvedFunction<'a>, Halt> {
    let mut scope = Scope::of_self(tables.alloc, place, entity);
    let body = value_of(tables, &mut scope, &derived.of, &derived.value)?;
    Ok(ResolvedFunction {
        function: Function { locals: 0, body },
        calls: scope.calls,
    })
}

/// The function of nothing that a constant is.
pub(crate) fn constant<'a, 't>(
    tables: &Tables<'a, 't>,
    place: usize,
    constant: &'t ConstantTree<'a>,
) -> Result<ResolvedFunction<'a>, Halt> {
    let mut scope = Scope::empty(tables.alloc, place);
    let body = value_of(tables, &mut scope, &constant.of, &constant.value)?;
    Ok(ResolvedFunction {
        function: Function { locals: 0, body },
        calls: scope.calls,
    })
}

/// The statement that gives the value of an expression, as one of a type.
fn value_of<'a, 't>(
    tables: &Tables<'a, 't>,
    scope: &mut Scope<'a, 't>,
    of: &'t TypeTree<'a>,
    value: &Expression<'a>,
) -> Result<Vec<Statement<'a>>, Halt> {
    let value = term(tables, scope, value)?;
    let value = given(tables, scope, Some(of), value)?;
    let mut body = Vec::new(tables.alloc);
    add(&mut body, Statement::Return(value))?;
    Ok(body)
}

/// A function of the schema.
pub(crate) fn routine<'a, 't>(
    tables: &Tables<'a, 't>,
    place: usize,
    routine: &'t Routine<'a>,
) -> Result<ResolvedFunction<'a>, Halt> {
    let mut scope = Scope::empty(tables.alloc, place);
    for parameters in &routine.parameters {
        for name in &parameters.names {
            scope.declare(name.text, Some(&parameters.of))?;
        }
    }
    let parameters = scope.next;
    scope.result = routine.result.as_ref();
    scope.slots = slots(parameters, &routine.block);
    let mut body = Vec::new(tables.alloc);
    for slot in 0..parameters {
        take(tables, &mut scope, &mut body, slot)?;
    }
    run(tables, &mut scope, &mut body, &routine.block)?;
    Ok(ResolvedFunction {
        function: Function {
            locals: scope.slots.saturating_sub(parameters),
            body,
        },
        calls: scope.calls,
    })
}

/// How many slots there are with those of a block.
fn slots(before: usize, block: &Block) -> usize {
    let mut slots = before
        .saturating_add(block.constants.len())
        .saturating_add(repeats(NESTED, &block.statements));
    for variables in &block.locals {
        slots = slots.saturating_add(variables.names.len());
    }
    slots
}

/// Gives a parameter its value as one of what it is declared of.
fn take<'a, 't>(
    tables: &Tables<'a, 't>,
    scope: &mut Scope<'a, 't>,
    body: &mut Vec<Statement<'a>>,
    slot: usize,
) -> Result<(), Halt> {
    let of = match scope.variables.get(slot) {
        Some(variable) => variable.of,
        None => None,
    };
    match of {
        Some(of) => {
            if !is_changed(tables, of) {
                return Ok(());
            }
            let value = given(tables, scope, Some(of), Term::Local(slot))?;
            add(body, Statement::Assign(slot, value))
        }
        None => Ok(()),
    }
}

/// Adds what a block does: the values of its constants and variables, and its statements.
fn run<'a, 't>(
    tables: &Tables<'a, 't>,
    scope: &mut Scope<'a, 't>,
    body: &mut Vec<Statement<'a>>,
    block: &'t Block<'a>,
) -> Result<(), Halt> {
    if let Some(routine) = block.routines.first() {
        return Err(Halt::told(Reason::NotComputed, routine.name.place));
    }
    for constant in &block.constants {
        let value = term(tables, scope, &constant.value)?;
        let value = given(tables, scope, Some(&constant.of), value)?;
        let slot = scope.declare(constant.name.text, Some(&constant.of))?;
        add(body, Statement::Assign(slot, value))?;
    }
    for variables in &block.locals {
        declare(tables, scope, body, variables)?;
    }
    for statement in statements(tables, scope, &block.statements)? {
        add(body, statement)?;
    }
    Ok(())
}

/// Declares variables, with the value that each has at first.
fn declare<'a, 't>(
    tables: &Tables<'a, 't>,
    scope: &mut Scope<'a, 't>,
    body: &mut Vec<Statement<'a>>,
    variables: &'t Variables<'a>,
) -> Result<(), Halt> {
    let value = first_value(tables, scope, variables)?;
    let first = scope.next;
    for name in &variables.names {
        scope.declare(name.text, Some(&variables.of))?;
    }
    match value {
        Some(value) => assign_all(body, first, scope.next, value),
        None => Ok(()),
    }
}

/// Gives a value to the first of some variables, and that one's to the others.
fn assign_all<'a>(
    body: &mut Vec<Statement<'a>>,
    first: usize,
    end: usize,
    value: Term<'a>,
) -> Result<(), Halt> {
    add(body, Statement::Assign(first, value))?;
    for slot in first.saturating_add(1)..end {
        add(body, Statement::Assign(slot, Term::Local(first)))?;
    }
    Ok(())
}

/// The value that variables have at first. An ARRAY has its elements from the first on, which have no value yet.
fn first_value<'a, 't>(
    tables: &Tables<'a, 't>,
    scope: &mut Scope<'a, 't>,
    variables: &'t Variables<'a>,
) -> Result<Option<Term<'a>>, Halt> {
    match &variables.value {
        Some(tree) => {
            let value = term(tables, scope, tree)?;
            Ok(Some(given(tables, scope, Some(&variables.of), value)?))
        }
        None => {
            if !is_array(&variables.of) {
                return Ok(None);
            }
            let nothing = Term::Literal(Literal::Indeterminate);
            Ok(Some(given(tables, scope, Some(&variables.of), nothing)?))
        }
    }
}

fn is_array(of: &TypeTree) -> bool {
    match of {
        TypeTree::Aggregation(layer, _) => layer.kind == AggregateKind::Array,
        _ => false,
    }
}

/// The places of the entities of a RULE.
pub(crate) fn populations(tables: &Tables, rule: &GlobalRule) -> Result<Vec<u32>, Halt> {
    let mut entities = Vec::new(tables.alloc);
    for name in &rule.entities {
        if entities.push(entity_number(tables, *name)?).is_err() {
            return Err(Halt::Memory);
        }
    }
    Ok(entities)
}

/// Declares the populations of a RULE as variables.
fn declare_populations<'a, 't>(
    scope: &mut Scope<'a, 't>,
    rule: &GlobalRule<'a>,
) -> Result<(), Halt> {
    for name in &rule.entities {
        scope.declare(name.text, None)?;
    }
    Ok(())
}

/// Whether a RULE does nothing before its rules are asked.
pub(crate) fn is_plain(rule: &GlobalRule) -> bool {
    let block = &rule.block;
    block.routines.is_empty()
        && block.constants.is_empty()
        && block.locals.is_empty()
        && block.statements.is_empty()
}

/// The condition of a rule over the populations of a RULE that does nothing else.
pub(crate) fn condition_over<'a>(
    tables: &Tables<'a, '_>,
    place: usize,
    global: &GlobalRule<'a>,
    rule: &DomainRule<'a>,
) -> Result<ResolvedTerm<'a>, Halt> {
    let mut scope = Scope::empty(tables.alloc, place);
    declare_populations(&mut scope, global)?;
    scope.slots = scope.next;
    let term = term(tables, &mut scope, &rule.condition)?;
    Ok(ResolvedTerm {
        term,
        calls: scope.calls,
    })
}

/// The function of the populations of a RULE that does what the RULE does, and then gives the condition of a rule.
pub(crate) fn function_over<'a, 't>(
    tables: &Tables<'a, 't>,
    place: usize,
    global: &'t GlobalRule<'a>,
    rule: &DomainRule<'a>,
) -> Result<ResolvedFunction<'a>, Halt> {
    let mut scope = Scope::empty(tables.alloc, place);
    declare_populations(&mut scope, global)?;
    let populations = scope.next;
    scope.slots = slots(populations, &global.block);
    let mut body = Vec::new(tables.alloc);
    run(tables, &mut scope, &mut body, &global.block)?;
    let condition = term(tables, &mut scope, &rule.condition)?;
    add(&mut body, Statement::Return(condition))?;
    Ok(ResolvedFunction {
        function: Function {
            locals: scope.slots.saturating_sub(populations),
            body,
        },
        calls: scope.calls,
    })
}

/// The call of a function of the first so many variables.
pub(crate) fn call_over<'a>(
    alloc: Global,
    function: usize,
    count: usize,
) -> Result<Term<'a>, Halt> {
    let mut values = Vec::new(alloc);
    for slot in 0..count {
        push(&mut values, Term::Local(slot))?;
    }
    Ok(Term::Call(function, values))
}

/// The function that adds an element to a LIST so often: of the LIST, the element and how often.
pub(crate) fn repeater<'a>(alloc: Global) -> Result<ResolvedFunction<'a>, Halt> {
    let longer = with_last(alloc, Term::Local(0), Term::Local(1))?;
    let mut turn = Vec::new(alloc);
    add(&mut turn, Statement::Assign(0, longer))?;
    let mut body = Vec::new(alloc);
    add(
        &mut body,
        Statement::Repeat(
            3,
            Term::Literal(Literal::Integer(1)),
            Term::Local(2),
            Term::Literal(Literal::Integer(1)),
            Term::Literal(Literal::Logical(Truth::True)),
            Term::Literal(Literal::Logical(Truth::False)),
            turn,
        ),
    )?;
    add(&mut body, Statement::Return(Term::Local(0)))?;
    Ok(ResolvedFunction {
        function: Function { locals: 1, body },
        calls: Vec::new(alloc),
    })
}
