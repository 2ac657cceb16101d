//! Types in which each name is an entity or a type of the schema.

ghost use Rattle.std.specs.Prelude.{◌≡◌, ◌⊎◌, List, ℕ, Some, IfOk, IfSome, MatchOption, ◌<◌, length, get_or, []};
ghost use Rattle.p21_express.specs.Schema.{plain, named};
ghost use Rattle.p21_express.specs.Plain.{plain_expr, plain_under};
ghost use Rattle.p21_express.specs.WellFormed.{IsIn, name_in};
ghost use Rattle.p21_schema.specs.Resolved.{target_name, resolved_expr};
ghost use Rattle.p21_schema.specs.Under.{IsResolved, IsNoName};

use crate::ids::{EntityId, TypeId};
use crate::names::Names;
use p21_express::{Bounds, TypeExpr, Under, Width};
use std::alloc::{AllocError, Global};

/// What a name stands for.
#[derive(Clone, Copy, Debug, PartialEq, Eq)]
pub enum Target {
    Entity(EntityId),
    Defined(TypeId),
}

/// A type.
#[derive(Debug, Drop)]
pub enum ResolvedExpr {
    Integer,
    Number,
    Boolean,
    Logical,
    Real,
    /// STRING.
    Text(Width),
    Binary(Width),
    Array {
        bounds: Bounds,
        /// Whether an element may be left out.
        optional: bool,
        item: Box<ResolvedExpr>,
    },
    List {
        bounds: Bounds,
        /// Whether UNIQUE stands after OF: no two elements may be equal.
        unique: bool,
        item: Box<ResolvedExpr>,
    },
    Set {
        bounds: Bounds,
        item: Box<ResolvedExpr>,
    },
    Bag {
        bounds: Bounds,
        item: Box<ResolvedExpr>,
    },
    /// An entity or a type.
    Named(Target),
}

/// What stands under a type.
#[derive(Debug, Drop)]
pub enum Resolved {
    /// The items of an ENUMERATION.
    Items(Vec<Vec<u8>>),
    /// The items of a SELECT.
    Select(Vec<Target>),
    Plain(ResolvedExpr),
}

/// What a name stands for.
pub(crate) fn target_of(entities: &Names, types: &Names, name: &[u8]) -> Target
    requires { IsIn entities.now name.now ⊎ IsIn types.now name.now }
    ensures { target_name entities.now types.now result ≡ Some name.now }
{
    match entities.place(name) {
        Some(index) => Target::Entity(EntityId { index }),
        None => Target::Defined(TypeId {
            index: types.known(name),
        }),
    }
}

/// A type by what its name stands for.
pub(crate) fn resolve(
    alloc: Global,
    entities: &Names,
    types: &Names,
    texpr: &TypeExpr,
) -> Result<ResolvedExpr, AllocError>
    requires { IfSome (name_in (plain_expr texpr.now)) (λ n. IsIn entities.now n ⊎ IsIn types.now n) }
    ensures { IfOk result (λ found. resolved_expr entities.now types.now found ≡ Some (plain_expr texpr.now)) }
{
    Ok(match texpr {
        TypeExpr::Integer => ResolvedExpr::Integer,
        TypeExpr::Number => ResolvedExpr::Number,
        TypeExpr::Boolean => ResolvedExpr::Boolean,
        TypeExpr::Logical => ResolvedExpr::Logical,
        TypeExpr::Real => ResolvedExpr::Real,
        TypeExpr::Text(width) => ResolvedExpr::Text(*width),
        TypeExpr::Binary(width) => ResolvedExpr::Binary(*width),
        TypeExpr::Array {
            bounds,
            optional,
            item,
        } => ResolvedExpr::Array {
            bounds: *bounds,
            optional: *optional,
            item: Box::new(alloc, resolve(alloc, entities, types, item)?)?,
        },
        TypeExpr::List {
            bounds,
            unique,
            item,
        } => ResolvedExpr::List {
            bounds: *bounds,
            unique: *unique,
            item: Box::new(alloc, resolve(alloc, entities, types, item)?)?,
        },
        TypeExpr::Set { bounds, item } => ResolvedExpr::Set {
            bounds: *bounds,
            item: Box::new(alloc, resolve(alloc, entities, types, item)?)?,
        },
        TypeExpr::Bag { bounds, item } => ResolvedExpr::Bag {
            bounds: *bounds,
            item: Box::new(alloc, resolve(alloc, entities, types, item)?)?,
        },
        TypeExpr::Named(name) => ResolvedExpr::Named(target_of(entities, types, name)),
    })
}
