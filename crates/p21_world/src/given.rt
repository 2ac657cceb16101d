//! Values as they are given to what is declared of a type.

use crate::made::is_instance;
use crate::push::push;
use crate::values::{DEEPEST, LOGICAL, NUMBER, as_real, elements_of, of_type};
use crate::world::FileWorld;
use p21_names::Shape;
use p21_schema::{Resolved, ResolvedExpr, Target};
use p21_values::{
    BinaryOperator, Budget, ByPlace, Item, ItemPlace, Kind, Stop, Truth, Value, aggregate, binary,
};
use std::alloc::AllocError;

impl<'x, 'a> FileWorld<'x, 'a> {
    /// The value of the type of a number, or of a shape behind the types.
    pub fn typed<'w>(
        &'w self,
        budget: &mut Budget,
        number: u32,
        values: &[Value<'w>],
    ) -> Result<Value<'w>, Stop> {
        let Some(value) = values.first() else {
            return Ok(Value::Indeterminate);
        };
        match self.dictionary.schema.type_at(number as usize) {
            Some(defined) => self.given_type(budget, DEEPEST, defined.place(), value),
            None => {
                let types = self.dictionary.graph.under.len();
                match Shape::at((number as usize).saturating_sub(types)) {
                    Some(shape) => self.shaped(budget, shape, value, values),
                    None => Ok(value.share()?),
                }
            }
        }
    }

    /// A value of a shape.
    fn shaped<'w>(
        &'w self,
        budget: &mut Budget,
        shape: Shape,
        value: &Value<'w>,
        values: &[Value<'w>],
    ) -> Result<Value<'w>, Stop> {
        match shape {
            Shape::Real => Ok(as_real(value.bare())),
            Shape::Bag => self.collected(budget, Kind::Bag, value),
            Shape::List => self.collected(budget, Kind::List, value),
            Shape::Set => self.collected(budget, Kind::Set, value),
            Shape::Array => array(budget, value.bare(), values.get(1), values.get(2)),
        }
    }

    /// A value as one of a type; `?` where it is none. At most so many values are nested.
    #[cycle(given)]
    pub(crate) fn given<'w>(
        &'w self,
        budget: &mut Budget,
        depth: usize,
        texpr: &ResolvedExpr,
        value: &Value<'w>,
    ) -> Result<Value<'w>, Stop> {
        if depth == 0 {
            return Err(Stop::Limit);
        }
        match texpr {
            ResolvedExpr::Named(Target::Defined(defined)) => {
                self.given_type(budget, depth - 1, defined.place(), value)
            }
            _ => self.given_plain(budget, depth - 1, texpr, value),
        }
    }

    /// A value as one of a type that is no defined one.
    #[cycle(given)]
    fn given_plain<'w>(
        &'w self,
        budget: &mut Budget,
        depth: usize,
        texpr: &ResolvedExpr,
        value: &Value<'w>,
    ) -> Result<Value<'w>, Stop> {
        if let ResolvedExpr::Named(_) = texpr {
            return if is_instance(value) {
                Ok(value.share()?)
            } else {
                Ok(Value::Indeterminate)
            };
        }
        match elements_of(texpr) {
            Some(elements) => self.given_elements(
                budget,
                depth,
                elements.kind,
                elements.item,
                value,
            ),
            None => self.given_simple(budget, texpr, value.bare()),
        }
    }

    /// A value as one of the defined type at a place.
    #[cycle(given)]
    fn given_type<'w>(
        &'w self,
        budget: &mut Budget,
        depth: usize,
        place: usize,
        value: &Value<'w>,
    ) -> Result<Value<'w>, Stop> {
        let (Some(defined), Ok(number)) = (
            self.dictionary.schema.type_at(place),
            u32::try_from(place),
        ) else {
            return Ok(Value::Indeterminate);
        };
        if is_of_type(value, number) {
            return Ok(value.share()?);
        }
        match self.dictionary.schema.under(defined) {
            Resolved::Items(_) => self.given_item(budget, number, value.bare()),
            Resolved::Select(_) => Ok(value.share()?),
            Resolved::Plain(texpr) => {
                let inner = self.given_plain(budget, depth, texpr, value.bare())?;
                of_type(budget, number, inner.bare().share()?)
            }
        }
    }

    /// A value as an item of an enumeration.
    fn given_item<'w>(
        &self,
        budget: &mut Budget,
        defined: u32,
        value: &Value<'w>,
    ) -> Result<Value<'w>, Stop> {
        let Value::Enumerated(item) = value else {
            return Ok(Value::Indeterminate);
        };
        let end = self.dictionary.end_of(budget, defined)?;
        let Some(item) = self.item_in(end, *item) else {
            return Ok(Value::Indeterminate);
        };
        let item = Value::Enumerated(item);
        if end == defined {
            Ok(item)
        } else {
            of_type(budget, defined, item)
        }
    }

    /// An item as one of an enumeration.
    fn item_in(&self, enumeration: u32, item: Item) -> Option<Item> {
        match item.place {
            Some(
                ItemPlace {
                    enumeration: own,
                    ..
                },
            ) => { if own == enumeration { Some(item) } else { None } }
            None => self.dictionary.item(
                enumeration,
                self.dictionary.names.name(item.name as usize)?,
            ),
        }
    }

    /// A value as one of a simple type.
    fn given_simple<'w>(
        &self,
        budget: &mut Budget,
        texpr: &ResolvedExpr,
        value: &Value<'w>,
    ) -> Result<Value<'w>, Stop> {
        match (texpr, value) {
            (ResolvedExpr::Real, _) => Ok(as_real(value)),
            (ResolvedExpr::Integer, Value::Integer(_)) => Ok(value.share()?),
            (ResolvedExpr::Number, Value::Integer(_) | Value::Real(_)) => {
                of_type(budget, self.type_behind(NUMBER), value.share()?)
            }
            (ResolvedExpr::Boolean, Value::Logical(Truth::Unknown)) => Ok(Value::Indeterminate),
            (ResolvedExpr::Boolean, Value::Logical(_)) => Ok(value.share()?),
            (ResolvedExpr::Logical, Value::Logical(_)) => {
                of_type(budget, self.type_behind(LOGICAL), value.share()?)
            }
            (ResolvedExpr::Text(_), Value::Text(_)) => Ok(value.share()?),
            (ResolvedExpr::Binary(_), Value::Binary(_)) => Ok(value.share()?),
            _ => Ok(Value::Indeterminate),
        }
    }

    /// A value as an aggregate of elements of a type.
    #[cycle(given)]
    fn given_elements<'w>(
        &'w self,
        budget: &mut Budget,
        depth: usize,
        kind: Kind,
        item: &ResolvedExpr,
        value: &Value<'w>,
    ) -> Result<Value<'w>, Stop> {
        let Value::Aggregate(own, values) = value.bare() else {
            return Ok(Value::Indeterminate);
        };
        if !is_given(kind, *own) {
            return Ok(Value::Indeterminate);
        }
        if keeps_values(item) {
            return self.collected(budget, kind, value);
        }
        let mut given = Vec::with_capacity(budget.alloc(), values.len())?;
        for element in values.as_slice() {
            budget.take()?;
            let element = self.given(budget, depth, item, element)?;
            push(&mut given, element)?;
        }
        let whole = aggregate(*own, given, budget)?;
        self.collected(budget, kind, &whole)
    }

    /// An aggregate as one of a kind; `?` where it cannot be given to such.
    fn collected<'w>(
        &'w self,
        budget: &mut Budget,
        kind: Kind,
        value: &Value<'w>,
    ) -> Result<Value<'w>, Stop> {
        let Value::Aggregate(own, values) = value.bare() else {
            return Ok(Value::Indeterminate);
        };
        if !is_given(kind, *own) {
            return Ok(Value::Indeterminate);
        }
        match (kind, *own) {
            (Kind::Set, Kind::Set) => Ok(value.bare().share()?),
            (Kind::Set, _) => {
                let none = aggregate(Kind::Set, Vec::new(budget.alloc()), budget)?;
                let bag = Value::Aggregate(Kind::Bag, values.clone()?);
                binary(BinaryOperator::Add, &none, &bag, &ByPlace, budget)
            }
            (Kind::Array(_), Kind::Array(low)) => {
                Ok(Value::Aggregate(Kind::Array(low), values.clone()?))
            }
            _ => Ok(Value::Aggregate(kind, values.clone()?)),
        }
    }
}

/// Whether a value is of a defined type by its name.
fn is_of_type(value: &Value<'_>, defined: u32) -> bool {
    match value {
        Value::Typed(own, _) => *own == defined,
        _ => false,
    }
}

/// Whether elements stay as they are where they are given to what is declared of a type.
fn keeps_values(item: &ResolvedExpr) -> bool {
    match item {
        ResolvedExpr::Named(Target::Entity(_)) => true,
        ResolvedExpr::Integer | ResolvedExpr::Boolean => true,
        ResolvedExpr::Text(_) | ResolvedExpr::Binary(_) => true,
        _ => false,
    }
}

/// Whether an aggregate of the second kind can be given to one of the first.
fn is_given(kind: Kind, own: Kind) -> bool {
    match (kind, own) {
        (_, Kind::Initializer) => true,
        (Kind::Bag | Kind::Set, Kind::Bag | Kind::Set) => true,
        (Kind::List, Kind::List) => true,
        (Kind::Array(_), Kind::Array(_)) => true,
        _ => false,
    }
}

/// An ARRAY of the elements of a value, from an index to another where they are given; of no value one of `?` alone.
fn array<'w>(
    budget: &mut Budget,
    value: &Value<'w>,
    low: Option<&Value<'w>>,
    high: Option<&Value<'w>>,
) -> Result<Value<'w>, Stop> {
    let Some(own) = array_len(value) else {
        return Ok(Value::Indeterminate);
    };
    let first = match index_of(low) {
        Some(first) => first,
        None => first_index(value),
    };
    let count = match (index_of(low), index_of(high)) {
        (Some(low), Some(high)) => count_of(low, high),
        _ => own,
    };
    let mut elements = Vec::new(budget.alloc());
    for at in 0..count {
        budget.take()?;
        push(&mut elements, array_element(value, at)?)?;
    }
    aggregate(Kind::Array(first), elements, budget)
}

/// How many elements a value gives to an ARRAY; `None` where it is none.
fn array_len(value: &Value<'_>) -> Option<usize> {
    match value {
        Value::Aggregate(Kind::Array(_) | Kind::Initializer, values) => Some(values.len()),
        Value::Indeterminate => Some(0),
        _ => None,
    }
}

/// The element at a place; `?` where there is none.
fn array_element<'w>(value: &Value<'w>, place: usize) -> Result<Value<'w>, AllocError> {
    let Value::Aggregate(_, values) = value else {
        return Ok(Value::Indeterminate);
    };
    match values.get(place) {
        Some(element) => element.share(),
        None => Ok(Value::Indeterminate),
    }
}

/// The index of the first element of an ARRAY; of another value 1.
fn first_index(value: &Value<'_>) -> i64 {
    match value {
        Value::Aggregate(Kind::Array(low), _) => *low,
        _ => 1,
    }
}

/// The index that a value is.
fn index_of(value: Option<&Value<'_>>) -> Option<i64> {
    match value?.bare() {
        Value::Integer(index) => Some(*index),
        _ => None,
    }
}

/// How many indices there are from one to another.
fn count_of(low: i64, high: i64) -> usize {
    if high < low {
        return 0;
    }
    (high.abs_diff(low) as usize).saturating_add(1)
}
