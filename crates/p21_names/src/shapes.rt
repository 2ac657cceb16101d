//! What a value becomes where a variable, a parameter or a result is declared of a type.

/// What values are made where they are given to what is declared of a type that the schema does not name. It is asked for as the type behind those
/// of the schema, in this order.
#[derive(Clone, Copy, Debug, PartialEq, Eq)]
pub enum Shape {
    /// An ARRAY of the first value, from the index that is the second one to the third, where they are given. Of no value it is one without elements' values.
    Array,
    Bag,
    List,
    /// A SET: what stands in the value more than once stands in it once.
    Set,
    /// A REAL: an integer becomes the real number.
    Real,
}

impl Shape {
    /// Its place behind the types of a schema.
    pub fn place(self) -> usize {
        match self {
            Shape::Array => 0,
            Shape::Bag => 1,
            Shape::List => 2,
            Shape::Set => 3,
            Shape::Real => 4,
        }
    }

    /// The shape at a place behind the types of a schema.
    pub fn at(place: usize) -> Option<Shape> {
        match place {
            0 => Some(Shape::Array),
            1 => Some(Shape::Bag),
            2 => Some(Shape::List),
            3 => Some(Shape::Set),
            4 => Some(Shape::Real),
            _ => None,
        }
    }
}
