//! Rules of a schema's text, and what breaks them, as they are told of.

use p21_schema::{AttrId, EntityId};

/// Of which form a rule is.
#[derive(Clone, Copy, Debug, PartialEq, Eq)]
pub enum RuleForm {
    Unique,
    Inverse,
}

/// A rule of a schema's text.
#[derive(Clone, Copy, Debug)]
pub struct Rule<'a> {
    pub form: RuleForm,
    /// The label of a rule UNIQUE, or its number within its entity; or the name of an INVERSE attribute, in any case of letters.
    pub label: &'a [u8],
    /// The entity that has it.
    pub entity: EntityId,
}

/// A rule, and how many faults break it.
#[derive(Clone, Copy, Debug)]
pub struct RuleCount<'a> {
    pub rule: Rule<'a>,
    pub count: u64,
}

/// An instance that breaks a rule UNIQUE.
#[derive(Clone, Copy, Debug)]
pub struct BrokenUnique<'a> {
    pub rule: Rule<'a>,
    /// The place of the instance's name, in bytes from the file's first byte.
    pub at: u64,
    /// The attributes of the rule.
    pub attributes: &'a [AttrId],
    /// The name of an earlier instance that has the same values of them.
    pub earlier: u64,
}

/// An instance to which too few or too many others refer, by the bounds of an INVERSE attribute.
#[derive(Clone, Copy, Debug)]
pub struct BrokenInverse<'a> {
    pub rule: Rule<'a>,
    /// The place of the instance's name, in bytes from the file's first byte.
    pub at: u64,
    /// The entity whose instances refer, and the attribute by which they do.
    pub source: EntityId,
    pub attribute: AttrId,
    /// Whether each reference counts, as in a BAG, and not each instance that refers.
    pub is_bag: bool,
    /// How many refer.
    pub count: u64,
    /// The least count, and the greatest; `None` if there is none.
    pub low: u64,
    pub high: Option<u64>,
}

/// A rule that was not checked.
#[derive(Clone, Copy, Debug)]
pub struct UncheckedRule<'a> {
    pub rule: Rule<'a>,
    /// Where it begins in the schema's text, in bytes.
    pub at: u64,
    pub reason: Reason<'a>,
}

/// Why a rule was not checked. Names are in any case of letters.
#[derive(Clone, Copy, Debug)]
pub enum Reason<'a> {
    /// Its bounds are not numbers.
    NoNumbers,
    /// It is over an attribute that is derived or inverse.
    NotExplicit {
        attribute: &'a [u8],
    },
    /// It is over an attribute that another entity derives; a rule UNIQUE is checked in the instances that are not of that one.
    DerivedBy {
        attribute: &'a [u8],
        subtype: &'a [u8],
    },
}
