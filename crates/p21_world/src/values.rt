//! The parameters of instances as values of the types that their attributes are declared of.

ghost use Rattle.p21_tree.specs.Bodies.{AllHaveBodies, HasBodies};
ghost use Rattle.p21_tree.specs.Plain.{plain};

use crate::leaf::{binary, finite, integer, real, text, truth};
use crate::push::push;
use crate::world::FileWorld;
use p21_schema::{Resolved, ResolvedExpr, Target};
use p21_tree::Param;
use p21_values::{Budget, Kind, Stop, Value, aggregate, typed};
use std::num::nearest_i64_to_f64;

/// How deep parameters may be nested; those of a file are so by fewer.
pub(crate) const DEEPEST: usize = 140;

/// How far behind the types of a schema NUMBER stands, as the type of values that are declared so.
pub(crate) const NUMBER: usize = 5;

/// Likewise LOGICAL.
pub(crate) const LOGICAL: usize = 6;

/// A value of a defined type; `?` stays so.
pub(crate) fn of_type<'w>(
    budget: &mut Budget,
    defined: u32,
    value: Value<'w>,
) -> Result<Value<'w>, Stop> {
    match value {
        Value::Indeterminate => Ok(Value::Indeterminate),
        value => typed(defined, value, budget),
    }
}

impl<'x, 'a> FileWorld<'x, 'a> {
    /// The place of one of the types behind those of the schema.
    pub(crate) fn type_behind(&self, far: usize) -> u32 {
        let place = self.dictionary.graph.under.len().saturating_add(far);
        u32::try_from(place).unwrap_or(u32::MAX)
    }

    /// The value of a parameter of a type, in which at most so many are nested.
    #[cycle(values)]
    pub(crate) fn value<'w>(
        &'w self,
        budget: &mut Budget,
        depth: usize,
        texpr: &ResolvedExpr,
        param: &'w Param<'a>,
    ) -> Result<Value<'w>, Stop>
        requires { HasBodies (plain param.now) }
    {
        if depth == 0 {
            return Err(Stop::Limit);
        }
        match param {
            Param::Absent | Param::Derived => Ok(Value::Indeterminate),
            Param::Ref(name) => Ok(self.instance(*name)),
            Param::Typed(keyword, inner) => {
                match self.dictionary.schema.type_named(keyword) {
                    Some(defined) => self.value_of_type(budget, depth - 1, defined.place(), inner),
                    None => Ok(Value::Indeterminate),
                }
            }
            _ => match texpr {
                ResolvedExpr::Named(Target::Defined(defined)) => {
                    self.value_of_type(budget, depth - 1, defined.place(), param)
                }
                _ => self.plain_value(budget, depth - 1, texpr, param),
            },
        }
    }

    /// The value of a parameter of the defined type at a place.
    #[cycle(values)]
    fn value_of_type<'w>(
        &'w self,
        budget: &mut Budget,
        depth: usize,
        place: usize,
        param: &'w Param<'a>,
    ) -> Result<Value<'w>, Stop>
        requires { HasBodies (plain param.now) }
    {
        let (Some(defined), Ok(number)) = (
            self.dictionary.schema.type_at(place),
            u32::try_from(place),
        ) else {
            return Ok(Value::Indeterminate);
        };
        match self.dictionary.schema.under(defined) {
            Resolved::Items(_) => self.value_of_item(budget, number, param),
            Resolved::Select(_) => self.value_of_select(budget, depth, param),
            Resolved::Plain(texpr) => {
                let value = self.plain_value(budget, depth, texpr, param)?;
                of_type(budget, number, value)
            }
        }
    }

    /// The value of a parameter of a SELECT: an instance, or a value that names its type.
    #[cycle(values)]
    fn value_of_select<'w>(
        &'w self,
        budget: &mut Budget,
        depth: usize,
        param: &'w Param<'a>,
    ) -> Result<Value<'w>, Stop>
        requires { HasBodies (plain param.now) }
    {
        if depth == 0 {
            return Err(Stop::Limit);
        }
        match param {
            Param::Ref(name) => Ok(self.instance(*name)),
            Param::Typed(keyword, inner) => {
                match self.dictionary.schema.type_named(keyword) {
                    Some(defined) => self.value_of_type(budget, depth - 1, defined.place(), inner),
                    None => Ok(Value::Indeterminate),
                }
            }
            _ => Ok(Value::Indeterminate),
        }
    }

    /// The value of a parameter of an enumeration, perhaps by another name.
    fn value_of_item<'w>(
        &self,
        budget: &mut Budget,
        defined: u32,
        param: &Param<'a>,
    ) -> Result<Value<'w>, Stop> {
        let end = self.dictionary.end_of(budget, defined)?;
        let item = self.item(end, param);
        if end == defined {
            Ok(item)
        } else {
            of_type(budget, defined, item)
        }
    }

    /// The instance of a name.
    fn instance<'w>(&self, name: u64) -> Value<'w> {
        let Some(place) = self.model.position(name) else {
            return Value::Indeterminate;
        };
        match u32::try_from(place) {
            Ok(place) => Value::Instance(place),
            Err(_) => Value::Indeterminate,
        }
    }

    /// The item of an enumeration that a parameter names.
    fn item<'w>(&self, enumeration: u32, param: &Param<'a>) -> Value<'w> {
        let Param::Enumeration(name) = param else {
            return Value::Indeterminate;
        };
        match self.dictionary.item(enumeration, name) {
            Some(item) => Value::Enumerated(item),
            None => Value::Indeterminate,
        }
    }

    /// The value of a parameter of a type that is no defined one.
    #[cycle(values)]
    fn plain_value<'w>(
        &'w self,
        budget: &mut Budget,
        depth: usize,
        texpr: &ResolvedExpr,
        param: &'w Param<'a>,
    ) -> Result<Value<'w>, Stop>
        requires { HasBodies (plain param.now) }
    {
        match param {
            Param::Int(spelled) => self.whole(budget, texpr, spelled),
            Param::Real(spelled) => self.number(budget, texpr, real(spelled)),
            Param::Str(body) => text(budget, body),
            Param::Binary(body) => binary(budget, body),
            Param::Enumeration(name) => self.truth_of(budget, texpr, name),
            Param::Items(params) => self.aggregate(budget, depth, texpr, params),
            _ => Ok(Value::Indeterminate),
        }
    }

    /// A truth of the file as a value of a type.
    fn truth_of<'w>(
        &self,
        budget: &mut Budget,
        texpr: &ResolvedExpr,
        name: &[u8],
    ) -> Result<Value<'w>, Stop> {
        match texpr {
            ResolvedExpr::Logical => of_type(budget, self.type_behind(LOGICAL), truth(name)),
            _ => Ok(truth(name)),
        }
    }

    /// An integer of the file as a value of a type.
    fn whole<'w>(
        &self,
        budget: &mut Budget,
        texpr: &ResolvedExpr,
        spelled: &[u8],
    ) -> Result<Value<'w>, Stop> {
        match texpr {
            ResolvedExpr::Real => Ok(real(spelled)),
            _ => {
                let value = integer(spelled)?;
                self.number(budget, texpr, value)
            }
        }
    }

    /// A number as a value of a type.
    fn number<'w>(
        &self,
        budget: &mut Budget,
        texpr: &ResolvedExpr,
        value: Value<'w>,
    ) -> Result<Value<'w>, Stop> {
        match texpr {
            ResolvedExpr::Number => {
                let number = self.type_behind(NUMBER);
                of_type(budget, number, value)
            }
            _ => Ok(value),
        }
    }

    /// An aggregate of the file as a value of a type.
    #[cycle(values)]
    fn aggregate<'w>(
        &'w self,
        budget: &mut Budget,
        depth: usize,
        texpr: &ResolvedExpr,
        params: &'w [Param<'a>],
    ) -> Result<Value<'w>, Stop>
        requires { AllHaveBodies params.now }
    {
        let Some(elements) = elements_of(texpr) else {
            return Ok(Value::Indeterminate);
        };
        let mut values = Vec::with_capacity(budget.alloc(), params.len())?;
        for param in params {
            budget.take()?;
            let value = self.value(budget, depth, elements.item, param)?;
            push(&mut values, value)?;
        }
        aggregate(elements.kind, values, budget)
    }
}

/// The aggregates that stand for a type.
#[derive(Clone, Copy)]
pub(crate) struct Elements<'t> {
    pub(crate) kind: Kind,
    /// The type of their elements.
    pub(crate) item: &'t ResolvedExpr,
}

/// Those of a type; `None` where none stand for it.
pub(crate) fn elements_of(texpr: &ResolvedExpr) -> Option<Elements<'_>> {
    match texpr {
        ResolvedExpr::Array { bounds, item, .. } => Some(Elements {
            kind: Kind::Array(bounds.low.unwrap_or(1)),
            item,
        }),
        ResolvedExpr::List { item, .. } => Some(Elements {
            kind: Kind::List,
            item,
        }),
        ResolvedExpr::Set { item, .. } => Some(Elements {
            kind: Kind::Set,
            item,
        }),
        ResolvedExpr::Bag { item, .. } => Some(Elements {
            kind: Kind::Bag,
            item,
        }),
        _ => None,
    }
}

/// A number as a real one.
pub(crate) fn as_real<'w>(value: &Value<'w>) -> Value<'w> {
    match value {
        Value::Integer(number) => finite(nearest_i64_to_f64(*number)),
        Value::Real(number) => Value::Real(*number),
        _ => Value::Indeterminate,
    }
}
