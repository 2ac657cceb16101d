//! The parameters of a record.

/// A parameter, which borrows its text from the source.
#[derive(Debug, Drop)]
pub enum Param<'a> {
    /// `$`: no value is given.
    Absent,
    /// `*`: the value is derived.
    Derived,
    /// An integer, as spelled.
    Int(&'a [u8]),
    /// A real, as spelled.
    Real(&'a [u8]),
    /// A string: its body, between the apostrophes.
    Str(&'a [u8]),
    /// An enumeration: its name, between the points.
    Enumeration(&'a [u8]),
    /// A binary: its digits, between the quotes.
    Binary(&'a [u8]),
    /// An instance name: its number.
    Ref(u64),
    /// A list in parentheses.
    Items(Vec<Param<'a>>),
    /// A typed parameter: its keyword, and the parameter in its parentheses.
    Typed(&'a [u8], Box<Param<'a>>),
}
