//! Which types of a schema are of BOOLEAN or LOGICAL.

ghost use Rattle.std.specs.Prelude.{◌≡◌, ◌<◌, ◌↔◌, false, true, get_or, length, map, IfOk, IsTrue};
ghost use Rattle.p21_express.specs.Plain.{plain_expr, plain_type};
ghost use Rattle.p21_schema.specs.Place.{no_type};
ghost use Rattle.p21_json.specs.Flags.{AreLogical, AreSound, HasFlag, IsClosed, IsFlagged, IsFlaggedUnder, missing};

use p21_express::{TypeDecl, TypeExpr, Under};
use p21_schema::Schema;
use std::alloc::{AllocError, Global};

/// Of each type of a schema whether it is BOOLEAN or LOGICAL, stands for such a type, or for aggregates of such.
pub(crate) fn logical_types(alloc: Global, schema: &Schema) -> Result<Vec<bool>, AllocError>
    ensures { IfOk result (λ flags. AreLogical schema.now flags.items) }
{
    schema.one_id();
    let types = schema.declared().types.as_slice();
    let mut flags = vec![in alloc; false; types.len()]?;
    while flag_next(schema, types, &mut flags) {}
    Ok(flags)
}

/// Flags the first type that has no flag and is of types that have; answers whether there is one.
fn flag_next(schema: &Schema, types: &[TypeDecl], flags: &mut Vec<bool>) -> bool
    requires types { map plain_type types.now ≡ schema.now.types }
    requires count { length flags.old.items ≡ length schema.now.types }
    requires sound { AreSound schema.now flags.old.items }
    ensures count { length flags.new.items ≡ length flags.old.items }
    ensures sound { AreSound schema.now flags.new.items }
    ensures fewer { IsTrue result → missing flags.new.items < missing flags.old.items }
    ensures closed { result ≡ false → IsClosed schema.now flags.new.items }
{
    for place in 0..types.len() {
        if lacks_flag(schema, types, flags, place) {
            flags[place] = true;
            return true;
        }
    }
    false
}

/// Whether the type at a place has no flag, and is of types that have.
fn lacks_flag(schema: &Schema, types: &[TypeDecl], flags: &[bool], place: usize) -> bool
    requires types { map plain_type types.now ≡ schema.now.types }
    requires count { length flags.now ≡ length schema.now.types }
    requires place { place < length types.now }
    ensures lacking { IsTrue result → (get_or flags.now place false ≡ false) × IsFlaggedUnder schema.now flags.now (get_or schema.now.types place no_type).under }
    ensures not_lacking { result ≡ false → IsFlaggedUnder schema.now flags.now (get_or schema.now.types place no_type).under → get_or flags.now place false ≡ true }
{
    if flags[place] {
        return false;
    }
    is_flagged_type(schema, flags, &types[place])
}

/// Whether what stands under a type is of types that have a flag.
fn is_flagged_type(schema: &Schema, flags: &[bool], declared: &TypeDecl) -> bool
    requires { length flags.now ≡ length schema.now.types }
    ensures { IsTrue result ↔ IsFlaggedUnder schema.now flags.now (plain_type declared.now).under }
{
    match &declared.under {
        Under::Plain(texpr) => is_flagged(schema, flags, texpr),
        Under::Items(_) => false,
        Under::Select(_) => false,
    }
}

/// Whether a type is BOOLEAN or LOGICAL, has a flag, or is an aggregate of such.
fn is_flagged(schema: &Schema, flags: &[bool], texpr: &TypeExpr) -> bool
    requires { length flags.now ≡ length schema.now.types }
    ensures { IsTrue result ↔ IsFlagged schema.now flags.now (plain_expr texpr.now) }
{
    match texpr {
        TypeExpr::Boolean => true,
        TypeExpr::Logical => true,
        TypeExpr::Array { item, .. } => is_flagged(schema, flags, item),
        TypeExpr::List { item, .. } => is_flagged(schema, flags, item),
        TypeExpr::Set { item, .. } => is_flagged(schema, flags, item),
        TypeExpr::Bag { item, .. } => is_flagged(schema, flags, item),
        TypeExpr::Named(name) => has_flag(schema, flags, name),
        _ => false,
    }
}

/// Whether the type of this name has a flag.
fn has_flag(schema: &Schema, flags: &[bool], name: &[u8]) -> bool
    requires { length flags.now ≡ length schema.now.types }
    ensures { IsTrue result ↔ HasFlag schema.now flags.now name.now }
{
    schema.one_id();
    match schema.type_named(name) {
        Some(id) => flags[id.place()],
        None => false,
    }
}
