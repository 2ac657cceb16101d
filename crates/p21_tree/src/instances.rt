//! Records and instances of the data section.

ghost use Rattle.std.specs.Prelude.{◌≡◌, ◌<◌, false, length};
ghost use Rattle.p21_tree.specs.Bodies.{AllHaveBodies, AllHaveBodies-prop};

use crate::few::Few;
use crate::params::Param;

/// A keyword and its parameters.
#[derive(Debug, Drop)]
pub struct Record<'a> {
    /// The keyword, as spelled; a user-defined one with its `!`.
    pub keyword: &'a [u8],
    /// The parameters in their order.
    pub params: Few<Param<'a>>,
    /// Each string and binary among the parameters holds the body of such a token.
    pub ghost bodies: { AllHaveBodies params } by { AllHaveBodies-prop params },
}

/// An instance as it is written, not yet checked against a schema.
#[derive(Debug, Drop)]
pub struct RawInstance<'a> {
    /// The number of its name.
    pub name: u64,
    /// The place of its name, in bytes from the file's first byte.
    pub at: u64,
    /// Whether it is written in the external mapping, as several records in parentheses.
    pub complex: bool,
    /// The records in their order: exactly one of a simple instance, at least one of a complex one.
    pub records: Few<Record<'a>>,
    /// There is a record.
    pub ghost some: { 0 < length records },
    /// A simple instance has one record.
    pub ghost single: { complex ≡ false → length records ≡ 1 },
}
