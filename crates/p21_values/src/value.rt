//! Values.

ghost use Rattle.std.specs.Prelude.{◌≡◌, IfOk};
ghost use Rattle.p21_values.specs.Plain.{bare, plain};

use crate::characters::Characters;
use crate::kind::{Item, Kind};
use crate::truth::Truth;
use std::alloc::AllocError;
use std::rc::Rc;

/// A value of an expression.
///
/// Characters may be borrowed. Aggregates, made instances and values of defined types are shared.
#[derive(Drop)]
pub enum Value<'a> {
    /// The indeterminate value, `?`.
    Indeterminate,
    Logical(Truth),
    Integer(i64),
    /// A real number, which is finite.
    Real(f64),
    Text(Characters<'a>),
    /// A binary: the code of `0` or `1` for each bit.
    Binary(Characters<'a>),
    Enumerated(Item),
    /// An instance of the file, by its place.
    Instance(u32),
    /// A value of a defined type, by the place of the type.
    Typed(u32, Rc<Value<'a>>),
    Aggregate(Kind, Rc<Vec<Value<'a>>>),
    /// An instance that an expression makes: of the entity at this place, with these values of its explicit attributes.
    Made(u32, Rc<Vec<Value<'a>>>),
}

const _: () = prove!(size_of::<Value<'static>>() <= 32);

impl<'a> Value<'a> {
    /// The same value, which is shared. An error says that memory ran out.
    pub fn share(&self) -> Result<Value<'a>, AllocError>
        ensures { IfOk result (λ v. plain v ≡ plain self.now) }
    {
        match self {
            Value::Indeterminate => Ok(Value::Indeterminate),
            Value::Logical(truth) => Ok(Value::Logical(*truth)),
            Value::Integer(number) => Ok(Value::Integer(*number)),
            Value::Real(number) => Ok(Value::Real(*number)),
            Value::Text(text) => Ok(Value::Text(text.share()?)),
            Value::Binary(bits) => Ok(Value::Binary(bits.share()?)),
            Value::Enumerated(item) => Ok(Value::Enumerated(*item)),
            Value::Instance(place) => Ok(Value::Instance(*place)),
            Value::Typed(defined, value) => Ok(Value::Typed(*defined, value.clone()?)),
            Value::Aggregate(kind, values) => Ok(Value::Aggregate(*kind, values.clone()?)),
            Value::Made(entity, values) => Ok(Value::Made(*entity, values.clone()?)),
        }
    }

    /// The value without the defined types that it is of.
    pub fn bare(&self) -> &Value<'a>
        ensures { plain result.now ≡ bare (plain self.now) }
    {
        let mut value = self;
        while let Value::Typed(_, inner) = value {
            value = inner;
        }
        value
    }

    /// How many characters or bits it has.
    pub(crate) fn characters(&self) -> usize {
        match self {
            Value::Text(text) => text.len(),
            Value::Binary(bits) => bits.len(),
            _ => 0,
        }
    }
}
