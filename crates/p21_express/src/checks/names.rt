//! Names to what they declare.

ghost use Rattle.std.specs.Prelude.{◌≡◌, IfOk};
ghost use Rattle.p21_express.specs.Plain.{plain_schema, plain_under};
ghost use Rattle.p21_express.specs.Index.{Declares, IsIndex, declared_type};
ghost use Rattle.p21_express.specs.Schema.{Schema};

use crate::declarations::{Declarations, Under};
use std::alloc::{AllocError, Global};
use std::collections::BTreeMap;

/// What a name declares, by its position among the entities or the types.
#[derive(Clone, Copy)]
pub(super) enum Declared {
    Entity(usize),
    Select(usize),
    Type(usize),
}

pub(super) type Index<'d> = BTreeMap<&'d [u8], Declared>;

/// What a type at a position is.
fn declared_type(under: &Under, position: usize) -> Declared
    ensures { result ≡ declared_type (plain_under under.now) position }
{
    match under {
        Under::Select(_) => Declared::Select(position),
        _ => Declared::Type(position),
    }
}

/// What each name declares.
pub(super) fn index(alloc: Global, declarations: &Declarations) -> Result<Index<'_>, AllocError>
    ensures { IfOk result (λ index. IsIndex (plain_schema declarations.now) index) }
{
    let mut index = BTreeMap::new(alloc);
    for (i, entity) in declarations.entities.iter().enumerate() {
        index.insert(entity.name.as_slice(), Declared::Entity(i))?;
    }
    for (i, decl) in declarations.types.iter().enumerate() {
        index.insert(decl.name.as_slice(), declared_type(&decl.under, i))?;
    }
    Ok(index)
}

/// What a name declares.
pub(super) fn declared_by(index: &Index, name: &[u8]) -> Option<Declared>
    ensures { (s : Schema) → IsIndex s index.now → Declares s name.now result }
{
    index.get(name).copied()
}
