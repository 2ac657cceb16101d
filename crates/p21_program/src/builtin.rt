//! The functions that the language has.

use p21_values::UnaryOperator;

/// A function that the language has.
#[derive(Clone, Copy, Debug, PartialEq, Eq)]
pub(crate) enum Builtin {
    Unary(UnaryOperator),
    /// NVL.
    OrElse,
    /// TYPEOF.
    Types,
    /// USEDIN.
    Users,
    /// One that is not computed.
    NotComputed,
}

/// The function of a name, if the language has one.
pub(crate) fn builtin_of(name: &[u8]) -> Option<Builtin> {
    if let Some(operator) = unary_function(name) {
        return Some(Builtin::Unary(operator));
    }
    if name == b"NVL".as_slice() {
        return Some(Builtin::OrElse);
    }
    if name == b"TYPEOF".as_slice() {
        return Some(Builtin::Types);
    }
    if name == b"USEDIN".as_slice() {
        return Some(Builtin::Users);
    }
    if is_not_computed(name) {
        return Some(Builtin::NotComputed);
    }
    None
}

/// How many parameters a function has. `None` where it is not computed.
pub(crate) fn count_of(builtin: Builtin) -> Option<usize> {
    match builtin {
        Builtin::Unary(_) => Some(1),
        Builtin::OrElse => Some(2),
        Builtin::Types => Some(1),
        Builtin::Users => Some(2),
        Builtin::NotComputed => None,
    }
}

/// The operator that a function of one parameter is.
fn unary_function(name: &[u8]) -> Option<UnaryOperator> {
    if name == b"ABS".as_slice() {
        return Some(UnaryOperator::Absolute);
    }
    if name == b"BLENGTH".as_slice() {
        return Some(UnaryOperator::BitLength);
    }
    if name == b"EXISTS".as_slice() {
        return Some(UnaryOperator::Exists);
    }
    if name == b"HIINDEX".as_slice() {
        return Some(UnaryOperator::HighIndex);
    }
    if name == b"LENGTH".as_slice() {
        return Some(UnaryOperator::Length);
    }
    if name == b"LOINDEX".as_slice() {
        return Some(UnaryOperator::LowIndex);
    }
    if name == b"ODD".as_slice() {
        return Some(UnaryOperator::Odd);
    }
    if name == b"SIZEOF".as_slice() {
        return Some(UnaryOperator::SizeOf);
    }
    if name == b"SQRT".as_slice() {
        return Some(UnaryOperator::SquareRoot);
    }
    None
}

/// Whether the language has a function of this name that is not computed.
fn is_not_computed(name: &[u8]) -> bool {
    let names: [&[u8]; 18] = [
        b"ACOS",
        b"ASIN",
        b"ATAN",
        b"COS",
        b"EXP",
        b"FORMAT",
        b"HIBOUND",
        b"LOBOUND",
        b"LOG",
        b"LOG10",
        b"LOG2",
        b"ROLESOF",
        b"SIN",
        b"TAN",
        b"VALUE",
        b"VALUE_IN",
        b"VALUE_UNIQUE",
        b"EXTENT",
    ];
    names.iter().any(|known| *known == name)
}
