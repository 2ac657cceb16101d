//! The operators at some of the points that their definitions decide.

use crate::{
    BinaryOperator, Budget, ByPlace, Characters, Kind, Stop, Truth, UnaryOperator, Value,
    aggregate, binary, index, like, unary, with_element,
};
use std::alloc::{AllocError, Global};
use std::rc::Rc;

/// What an operator gives of two integers; none where it is no integer.
fn integer(alloc: Global, op: BinaryOperator, v: i64, w: i64) -> Result<Option<i64>, Stop> {
    let mut budget = Budget::new(alloc, 100);
    match binary(
        op,
        &Value::Integer(v),
        &Value::Integer(w),
        &ByPlace,
        &mut budget,
    )? {
        Value::Integer(n) => Ok(Some(n)),
        _ => Ok(None),
    }
}

/// What an operator gives, as a truth; UNKNOWN where it is none.
fn truth<'a>(
    alloc: Global,
    op: BinaryOperator,
    v: &Value<'a>,
    w: &Value<'a>,
) -> Result<Truth, Stop> {
    let mut budget = Budget::new(alloc, 100);
    match binary(op, v, w, &ByPlace, &mut budget)? {
        Value::Logical(truth) => Ok(truth),
        _ => Ok(Truth::Unknown),
    }
}

/// Whether one text is less than another.
fn is_less(alloc: Global, v: &[u8], w: &[u8]) -> Result<Truth, Stop> {
    let v = Value::Text(Characters::Bytes(v));
    let w = Value::Text(Characters::Bytes(w));
    truth(alloc, BinaryOperator::Less, &v, &w)
}

/// An aggregate of two integers.
fn pair<'a>(alloc: Global, kind: Kind, first: i64, second: i64) -> Result<Value<'a>, AllocError> {
    let mut values = Vec::new(alloc);
    values.push(Value::Integer(first))?;
    values.push(Value::Integer(second))?;
    Ok(Value::Aggregate(kind, Rc::new(alloc, values)?))
}

/// Whether two aggregates are equal that have the same integers in another order.
fn turned_is_equal(alloc: Global, v: Kind, w: Kind) -> Result<Truth, Stop> {
    let v = pair(alloc, v, 1, 2)?;
    let w = pair(alloc, w, 2, 1)?;
    truth(alloc, BinaryOperator::Equal, &v, &w)
}

/// SIZEOF of what an operator gives of sets of 1 and 2, and of 2 and 3.
fn size(alloc: Global, op: BinaryOperator) -> Result<Option<i64>, Stop> {
    let mut budget = Budget::new(alloc, 100);
    let v = pair(alloc, Kind::Set, 1, 2)?;
    let w = pair(alloc, Kind::Set, 2, 3)?;
    let made = binary(op, &v, &w, &ByPlace, &mut budget)?;
    match unary(UnaryOperator::SizeOf, &made)? {
        Value::Integer(n) => Ok(Some(n)),
        _ => Ok(None),
    }
}

/// What a comparison gives of two made instances with an integer each.
fn made_is_equal(alloc: Global, v: (u32, i64), w: (u32, i64)) -> Result<Truth, Stop> {
    let v = made(alloc, v.0, v.1)?;
    let w = made(alloc, w.0, w.1)?;
    truth(alloc, BinaryOperator::Equal, &v, &w)
}

/// An instance of an entity with an integer and with `?` as its attributes.
fn made<'a>(alloc: Global, entity: u32, number: i64) -> Result<Value<'a>, AllocError> {
    let mut values = Vec::new(alloc);
    values.push(Value::Integer(number))?;
    values.push(Value::Indeterminate)?;
    Ok(Value::Made(entity, Rc::new(alloc, values)?))
}

#[test]
fn made_instances(rt: HostRuntime) {
    let alloc = rt.alloc();
    assert_eq!(rt; made_is_equal(alloc, (3, 1), (3, 1)), Ok(Truth::Unknown));
    assert_eq!(rt; made_is_equal(alloc, (3, 1), (3, 2)), Ok(Truth::False));
    assert_eq!(rt; made_is_equal(alloc, (3, 1), (4, 1)), Ok(Truth::False));
}

#[test]
fn made_with_another(rt: HostRuntime) -> Result<(), Stop> {
    let alloc = rt.alloc();
    let own = made(alloc, 3, 1)?;
    let (place, number) = (Value::Instance(3), Value::Integer(3));
    assert_eq!(rt;
        truth(alloc, BinaryOperator::Same, &own, &place),
        Ok(Truth::False)
    );
    assert_eq!(rt;
        truth(alloc, BinaryOperator::Same, &place, &own),
        Ok(Truth::False)
    );
    assert_eq!(rt;
        truth(alloc, BinaryOperator::Equal, &own, &number),
        Ok(Truth::False)
    );
    Ok(())
}

#[test]
fn truths(rt: HostRuntime) {
    assert_eq!(rt; Truth::Unknown.and(Truth::False), Truth::False);
    assert_eq!(rt; Truth::Unknown.or(Truth::True), Truth::True);
    assert_eq!(rt; Truth::Unknown.xor(Truth::True), Truth::Unknown);
}

#[test]
fn numbers(rt: HostRuntime) {
    let alloc = rt.alloc();
    assert_eq!(rt;
        integer(alloc, BinaryOperator::Quotient, -7, 2),
        Ok(Some(-3))
    );
    assert_eq!(rt;
        integer(alloc, BinaryOperator::Remainder, 7, -2),
        Ok(Some(-1))
    );
    assert_eq!(rt; integer(alloc, BinaryOperator::Quotient, 1, 0), Ok(None));
    assert_eq!(rt;
        integer(alloc, BinaryOperator::Add, i64::MAX, 1),
        Err(Stop::NotComputed)
    );
}

#[test]
fn comparisons(rt: HostRuntime) {
    let alloc = rt.alloc();
    assert_eq!(rt;
        truth(
            alloc,
            BinaryOperator::Equal,
            &Value::Integer(2),
            &Value::Real(2.0)
        ),
        Ok(Truth::True)
    );
    assert_eq!(rt;
        truth(
            alloc,
            BinaryOperator::Equal,
            &Value::Indeterminate,
            &Value::Indeterminate
        ),
        Ok(Truth::Unknown)
    );
    assert_eq!(rt; is_less(alloc, b"ab", b"abc"), Ok(Truth::True));
}

#[test]
fn aggregates(rt: HostRuntime) {
    let alloc = rt.alloc();
    assert_eq!(rt;
        turned_is_equal(alloc, Kind::Set, Kind::Bag),
        Ok(Truth::True)
    );
    assert_eq!(rt;
        turned_is_equal(alloc, Kind::Set, Kind::List),
        Ok(Truth::False)
    );
    assert_eq!(rt; size(alloc, BinaryOperator::Add), Ok(Some(3)));
    assert_eq!(rt; size(alloc, BinaryOperator::Multiply), Ok(Some(1)));
}

/// Whether a text is like a pattern.
fn is_like(alloc: Global, text: &[u8], pattern: &[u8]) -> Result<Option<bool>, Stop> {
    let mut budget = Budget::new(alloc, 100);
    let text = Value::Text(Characters::Bytes(text));
    let pattern = Value::Text(Characters::Bytes(pattern));
    match like(&text, &pattern, &mut budget)? {
        Value::Logical(truth) => Ok(Some(truth.is_true())),
        _ => Ok(None),
    }
}

/// The second element of a list of 1 and 2 that was given a 7 at an index.
fn second(alloc: Global, at: i64) -> Result<Option<i64>, Stop> {
    let mut budget = Budget::new(alloc, 100);
    let list = pair(alloc, Kind::List, 1, 2)?;
    let (at, element) = (Value::Integer(at), Value::Integer(7));
    let made = with_element(&list, &at, &element, &mut budget)?;
    match index(alloc, &made, &Value::Integer(2))? {
        Value::Integer(n) => Ok(Some(n)),
        _ => Ok(None),
    }
}

#[test]
fn patterns(rt: HostRuntime) {
    let alloc = rt.alloc();
    assert_eq!(rt; is_like(alloc, b"AB12", b"^^##"), Ok(Some(true)));
    assert_eq!(rt; is_like(alloc, b"AB1x", b"^^##"), Ok(Some(false)));
    assert_eq!(rt; is_like(alloc, b"part_1.stp", b"*_#.*"), Ok(Some(true)));
    assert_eq!(rt; is_like(alloc, b"a?", b"@\\?"), Ok(Some(true)));
    assert_eq!(rt; is_like(alloc, b"ab", b"@\\?"), Ok(Some(false)));
    assert_eq!(rt; is_like(alloc, b"b", b"!a"), Ok(Some(true)));
}

#[test]
fn elements(rt: HostRuntime) {
    let alloc = rt.alloc();
    assert_eq!(rt; second(alloc, 2), Ok(Some(7)));
    assert_eq!(rt; second(alloc, 3), Ok(Some(2)));
    assert_eq!(rt; second(alloc, 0), Ok(Some(2)));
}

/// A list of a list of a list and so on, so many.
fn nested<'a>(alloc: Global, count: usize) -> Result<Value<'a>, Stop> {
    let mut budget = Budget::new(alloc, 10_000);
    let mut value = Value::Integer(1);
    for _n in 0..count {
        let mut values = Vec::new(alloc);
        if let Err(full) = values.push(value) {
            return Err(AllocError::from(full).into());
        }
        value = aggregate(Kind::List, values, &mut budget)?;
    }
    Ok(value)
}

#[test]
fn nesting(rt: HostRuntime) {
    let alloc = rt.alloc();
    assert!(rt; nested(alloc, 60).is_ok());
    assert!(rt; nested(alloc, 70).is_err());
}

/// LIKE takes steps for each mark of the pattern.
#[test]
fn long_patterns(rt: HostRuntime) {
    let alloc = rt.alloc();
    assert!(rt; is_like(alloc, &[97; 100], b"*a*a*a").is_ok());
    assert!(rt; is_like(alloc, &[97; 100], b"*a*a*a*a*a*a*a*a*a*a*a").is_err());
}
