//! What the columns of attributes hold.

ghost use Rattle.p21_schema.specs.Row.{IsAttributeOf};

use p21_schema::{AttrId, Form, Resolved, ResolvedExpr, Schema, Target};

/// What the values of a column are.
#[derive(Clone, Copy, Debug, PartialEq, Eq)]
pub(crate) enum Affinity {
    Integer,
    Real,
    Text,
    /// Of several of these.
    Mixed,
}

impl Affinity {
    /// How the column is declared after its name.
    pub(crate) fn word(self) -> &'static str {
        match self {
            Affinity::Integer => " INTEGER",
            Affinity::Real => " REAL",
            Affinity::Text => " TEXT",
            Affinity::Mixed => "",
        }
    }
}

/// What the values of an attribute are, by all its declarations.
pub(crate) fn affinity_of(schema: &Schema, attribute: AttrId) -> Affinity
    requires { IsAttributeOf schema.now attribute }
{
    let mut joined = None;
    for declaration in schema.declarations(attribute) {
        joined = both(joined, of_form(schema, &declaration.form));
    }
    joined.unwrap_or(Affinity::Mixed)
}

/// What values are that one of two may be of.
fn both(one: Option<Affinity>, other: Option<Affinity>) -> Option<Affinity> {
    match (one, other) {
        (Some(first), Some(second)) if first != second => Some(Affinity::Mixed),
        (Some(first), _) => Some(first),
        (None, second) => second,
    }
}

/// What the values of a declaration are, if it has any.
fn of_form(schema: &Schema, form: &Form) -> Option<Affinity> {
    match form {
        Form::Derived => None,
        Form::Explicit { texpr, .. } => Some(of_type(schema, texpr)),
    }
}

/// What the values of a type are.
fn of_type(schema: &Schema, texpr: &ResolvedExpr) -> Affinity {
    match texpr {
        ResolvedExpr::Named(Target::Entity(_)) => Affinity::Integer,
        ResolvedExpr::Named(Target::Defined(id)) => match schema.type_at(id.place()) {
            Some(id) => of_resolved(schema.under(id)),
            None => Affinity::Mixed,
        },
        _ => of_expr(texpr),
    }
}

/// What the values are where this stands under a type.
fn of_resolved(under: &Resolved) -> Affinity {
    match under {
        Resolved::Items(_) => Affinity::Text,
        Resolved::Select(_) => Affinity::Mixed,
        Resolved::Plain(texpr) => of_expr(texpr),
    }
}

/// What the values of a type are that is no name.
fn of_expr(texpr: &ResolvedExpr) -> Affinity {
    match texpr {
        ResolvedExpr::Integer => Affinity::Integer,
        ResolvedExpr::Boolean => Affinity::Integer,
        ResolvedExpr::Logical => Affinity::Integer,
        ResolvedExpr::Real => Affinity::Real,
        ResolvedExpr::Number => Affinity::Mixed,
        ResolvedExpr::Named(_) => Affinity::Mixed,
        _ => Affinity::Text,
    }
}
