//! Expressions and statements where no instance is asked of.

ghost use Rattle.p21_evaluate.specs.Ends.{value};
ghost use Rattle.p21_values.specs.Ends.{gives};
ghost use Rattle.p21_values.specs.Plain.{nothing};
ghost use Rattle.p21_values.specs.Sets.{by_place};

use crate::{
    Combination, Construction, Function, Label, Literal, Making, Question, Reply, Statement, Term,
    World, evaluate,
};
use p21_values::{
    BinaryOperator, Budget, ByPlace, Instances, Kind, Stop, Truth, UnaryOperator, Value, aggregate,
    typed,
};
use std::alloc::{AllocError, Global};

/// No instances.
#[derive(Drop)]
struct Nothing;

impl Instances for Nothing {
    ghost known = { λ _. Unit {0} };

    ghost same = { λ _. by_place };

    fn same(&self, first: u32, second: u32, budget: &mut Budget) -> Result<Truth, Stop> {
        ByPlace.same(first, second, budget)
    }
}

impl World for Nothing {
    ghost replied = { λ _ _ _. gives (value nothing) };

    ghost made = { λ _ _ _. gives nothing };

    fn ask<'w>(
        &'w self,
        _budget: &mut Budget,
        _question: Question,
        _of: &Value<'w>,
    ) -> Result<Reply<'w>, Stop> {
        Ok(Reply::Value(Value::Indeterminate))
    }

    fn make<'w>(
        &'w self,
        _budget: &mut Budget,
        _construction: Construction,
        _values: Vec<Value<'w>>,
    ) -> Result<Value<'w>, Stop> {
        Ok(Value::Indeterminate)
    }
}

fn integer<'a>(number: i64) -> Term<'a> {
    Term::Literal(Literal::Integer(number))
}

fn truth<'a>(truth: Truth) -> Term<'a> {
    Term::Literal(Literal::Logical(truth))
}

fn combined<'a>(
    alloc: Global,
    operator: BinaryOperator,
    left: Term<'a>,
    right: Term<'a>,
) -> Result<Term<'a>, AllocError> {
    Ok(Term::Combine(
        Combination::Operator(operator),
        Box::new(alloc, left)?,
        Box::new(alloc, right)?,
    ))
}

/// The integer that an expression gives; none where it gives another value.
fn given(
    alloc: Global,
    functions: &[Function<'static>],
    term: &Term<'static>,
    depth: usize,
) -> Result<Option<i64>, Stop> {
    let mut budget = Budget::new(alloc, 1000);
    let mut slots = Vec::new(alloc);
    match evaluate(&Nothing, functions, depth, &mut budget, term, &mut slots)? {
        Value::Integer(number) => Ok(Some(number)),
        _ => Ok(None),
    }
}

/// A call of the first function with a number.
fn call<'a>(alloc: Global, number: i64) -> Result<Term<'a>, AllocError> {
    Ok(Term::Call(0, vec![in alloc; integer(number)]?))
}

/// SIZEOF of those of 1, 2 and 3 that are above 1.
fn size_above_one<'a>(alloc: Global) -> Result<Term<'a>, AllocError> {
    let over = Term::Make(
        Making::Initializer,
        vec![in alloc; integer(1), integer(2), integer(3)]?,
    );
    let condition = combined(alloc, BinaryOperator::Greater, Term::Local(0), integer(1))?;
    let query = Term::Query(Box::new(alloc, over)?, Box::new(alloc, condition)?);
    Ok(Term::Apply(UnaryOperator::SizeOf, Box::new(alloc, query)?))
}

/// How many of 1, 2 and 3 are above 1.
fn above_one(alloc: Global, depth: usize) -> Result<Option<i64>, Stop> {
    let size = size_above_one(alloc)?;
    given(alloc, &[], &size, depth)
}

/// A function with a loop over 1, 3, 5 and so on up to a number, which leaves 5 out and ends behind 9. It returns their sum.
fn sums<'a>(alloc: Global) -> Result<Vec<Function<'a>>, AllocError> {
    let skips = Statement::If(
        combined(alloc, BinaryOperator::Equal, Term::Local(2), integer(5))?,
        vec![in alloc; Statement::Skip]?,
        Vec::new(alloc),
    );
    let adds = Statement::Assign(
        1,
        combined(alloc, BinaryOperator::Add, Term::Local(1), Term::Local(2))?,
    );
    let function = Function {
        locals: 2,
        body: vec![in alloc;
            Statement::Assign(1, integer(0)),
            Statement::Repeat(
                2,
                integer(1),
                Term::Local(0),
                integer(2),
                truth(Truth::True),
                combined(
                    alloc,
                    BinaryOperator::GreaterOrEqual,
                    Term::Local(2),
                    integer(9)
                )?,
                vec![in alloc; skips, adds]?,
            ),
            Statement::Return(Term::Local(1)),
        ]?,
    };
    Ok(vec![in alloc; function]?)
}

fn sum_of_odd(alloc: Global, last: i64) -> Result<Option<i64>, Stop> {
    let functions = sums(alloc)?;
    let call = call(alloc, last)?;
    given(alloc, &functions, &call, 100)
}

/// A function with a CASE, which gives 10 for 1 and 2, 20 for 3, else 30.
fn cases_of<'a>(alloc: Global) -> Result<Vec<Function<'a>>, AllocError> {
    let labels = vec![in alloc;
        Label {
            value: integer(1),
            place: 0
        },
        Label {
            value: integer(2),
            place: 0
        },
        Label {
            value: integer(3),
            place: 1
        },
    ]?;
    let statements = vec![in alloc;
        Statement::Return(integer(10)),
        Statement::Block(vec![in alloc; Statement::Return(integer(20))]?),
        Statement::Return(integer(30)),
    ]?;
    let function = Function {
        locals: 0,
        body: vec![in alloc; Statement::Case(Term::Local(0), labels, 2, statements)]?,
    };
    Ok(vec![in alloc; function]?)
}

fn chosen(alloc: Global, number: i64) -> Result<Option<i64>, Stop> {
    let functions = cases_of(alloc)?;
    let call = call(alloc, number)?;
    given(alloc, &functions, &call, 100)
}

/// A function that gives the second element of 1 and 2 another value by an assignment. It returns that element.
fn assigns<'a>(alloc: Global) -> Result<Vec<Function<'a>>, AllocError> {
    let list = vec![in alloc; integer(1), integer(2)]?;
    let parts = vec![in alloc; Term::Local(1), integer(2), Term::Local(0)]?;
    let second = Term::Combine(
        Combination::Element,
        Box::new(alloc, Term::Local(1))?,
        Box::new(alloc, integer(2))?,
    );
    let function = Function {
        locals: 1,
        body: vec![in alloc;
            Statement::Assign(1, Term::Make(Making::Initializer, list)),
            Statement::Assign(1, Term::Make(Making::WithElement, parts)),
            Statement::Return(second),
        ]?,
    };
    Ok(vec![in alloc; function]?)
}

fn assigned(alloc: Global, number: i64) -> Result<Option<i64>, Stop> {
    let functions = assigns(alloc)?;
    let call = call(alloc, number)?;
    given(alloc, &functions, &call, 100)
}

/// SIZEOF of a query over an array of 1 and 2 for those above 1, by a function that is given the array.
fn sizes<'a>(alloc: Global) -> Result<Vec<Function<'a>>, AllocError> {
    let condition = combined(alloc, BinaryOperator::Greater, Term::Local(1), integer(1))?;
    let query = Term::Query(
        Box::new(alloc, Term::Local(0))?,
        Box::new(alloc, condition)?,
    );
    let size = Term::Apply(UnaryOperator::SizeOf, Box::new(alloc, query)?);
    let function = Function {
        locals: 0,
        body: vec![in alloc; Statement::Return(size)]?,
    };
    Ok(vec![in alloc; function]?)
}

/// An aggregate of 1 and 2, as a value of a defined type.
fn pair<'a>(kind: Kind, budget: &mut Budget) -> Result<Value<'a>, Stop> {
    let mut values = Vec::new(budget.alloc());
    for number in 1..3 {
        if let Err(full) = values.push(Value::Integer(number)) {
            return Err(AllocError::from(full).into());
        }
    }
    let pair = aggregate(kind, values, budget)?;
    typed(7, pair, budget)
}

/// How many elements a query over such an aggregate gives.
fn size_of_query(alloc: Global, kind: Kind) -> Result<Option<i64>, Stop> {
    let mut budget = Budget::new(alloc, 1000);
    let functions = sizes(alloc)?;
    let mut slots = Vec::new(alloc);
    let given = pair(kind, &mut budget)?;
    if let Err(full) = slots.push(given) {
        return Err(AllocError::from(full).into());
    }
    let call = of_local(alloc)?;
    match evaluate(&Nothing, &functions, 10, &mut budget, &call, &mut slots)? {
        Value::Integer(number) => Ok(Some(number)),
        _ => Ok(None),
    }
}

/// A call of the first function with the first variable.
fn of_local<'a>(alloc: Global) -> Result<Term<'a>, AllocError> {
    Ok(Term::Call(0, vec![in alloc; Term::Local(0)]?))
}

#[test]
fn queries_of_kinds(rt: HostRuntime) {
    let alloc = rt.alloc();
    assert_eq!(rt; size_of_query(alloc, Kind::List), Ok(Some(1)));
    assert_eq!(rt; size_of_query(alloc, Kind::Array(0)), Ok(Some(2)));
}

#[test]
fn assignments(rt: HostRuntime) {
    assert_eq!(rt; assigned(rt.alloc(), 7), Ok(Some(7)));
}

#[test]
fn queries(rt: HostRuntime) {
    let alloc = rt.alloc();
    assert_eq!(rt; above_one(alloc, 10), Ok(Some(2)));
    assert_eq!(rt; above_one(alloc, 2), Err(Stop::TooDeep));
}

#[test]
fn loops(rt: HostRuntime) {
    let alloc = rt.alloc();
    assert_eq!(rt; sum_of_odd(alloc, 0), Ok(Some(0)));
    assert_eq!(rt; sum_of_odd(alloc, 8), Ok(Some(11)));
    assert_eq!(rt; sum_of_odd(alloc, 99), Ok(Some(20)));
}

#[test]
fn cases(rt: HostRuntime) {
    let alloc = rt.alloc();
    assert_eq!(rt; chosen(alloc, 2), Ok(Some(10)));
    assert_eq!(rt; chosen(alloc, 3), Ok(Some(20)));
    assert_eq!(rt; chosen(alloc, 4), Ok(Some(30)));
}
