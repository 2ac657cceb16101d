//! The header section.

ghost use Rattle.p21_tree.specs.Bodies.{AllHaveBodies, AllHaveBodies-prop};

use crate::few::Few;
use crate::params::Param;

/// An entity of the header section.
#[derive(Debug, Drop)]
pub struct HeaderEntity<'a> {
    /// The keyword, as spelled; a user-defined one with its `!`.
    pub keyword: &'a [u8],
    /// The parameters in their order.
    pub params: Few<Param<'a>>,
    /// Each string and binary among the parameters holds the body of such a token.
    pub ghost bodies: { AllHaveBodies params } by { AllHaveBodies-prop params },
}

/// What stands before the instances of a file, up to and including `DATA;`.
#[derive(Debug, Drop)]
pub struct Preface<'a> {
    /// The place of the token `HEADER`, in bytes from the file's first byte.
    pub header_at: u64,
    /// The header entities in their order.
    pub entities: Vec<HeaderEntity<'a>>,
    /// The place after `DATA;`, in bytes from the file's first byte.
    pub data_at: u64,
}
