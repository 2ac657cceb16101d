//! A copy of a type.

ghost use Rattle.std.specs.Prelude.{◌≡◌, IfOk};
ghost use Rattle.p21_express.specs.Plain.{plain_expr};

use crate::declarations::TypeExpr;
use std::alloc::{AllocError, Global};

/// The same type once more.
pub(crate) fn copied(alloc: Global, texpr: &TypeExpr) -> Result<TypeExpr, AllocError>
    ensures { IfOk result (λ copy. plain_expr copy ≡ plain_expr texpr.now) }
{
    Ok(match texpr {
        TypeExpr::Integer => TypeExpr::Integer,
        TypeExpr::Number => TypeExpr::Number,
        TypeExpr::Boolean => TypeExpr::Boolean,
        TypeExpr::Logical => TypeExpr::Logical,
        TypeExpr::Real => TypeExpr::Real,
        TypeExpr::Text(width) => TypeExpr::Text(*width),
        TypeExpr::Binary(width) => TypeExpr::Binary(*width),
        TypeExpr::Array {
            bounds,
            optional,
            item,
        } => TypeExpr::Array {
            bounds: *bounds,
            optional: *optional,
            item: Box::new(alloc, copied(alloc, item)?)?,
        },
        TypeExpr::List {
            bounds,
            unique,
            item,
        } => TypeExpr::List {
            bounds: *bounds,
            unique: *unique,
            item: Box::new(alloc, copied(alloc, item)?)?,
        },
        TypeExpr::Set { bounds, item } => TypeExpr::Set {
            bounds: *bounds,
            item: Box::new(alloc, copied(alloc, item)?)?,
        },
        TypeExpr::Bag { bounds, item } => TypeExpr::Bag {
            bounds: *bounds,
            item: Box::new(alloc, copied(alloc, item)?)?,
        },
        TypeExpr::Named(name) => TypeExpr::Named(Vec::from_slice(alloc, name)?),
    })
}
