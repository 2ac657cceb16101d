//! The report of a schema that is refused.

ghost use Rattle.std.specs.Prelude.{◌≡◌, ◌++◌, Some, IfOk, OnOk};
ghost use Rattle.p21_render.specs.SchemaFaultLine.{schema_line, schema_fault_text};

use crate::text::{push, push_number};
use p21_express::SchemaError;
use std::alloc::{AllocError, Global};

/// The line of a schema's fault: its number, its kind, its place and a line end. `Memory` is no fault of a schema, and here too
/// lack of memory.
pub fn schema_fault_line(alloc: Global, error: SchemaError) -> Result<Vec<u8>, AllocError>
    ensures { IfOk result (λ line. schema_fault_text error ≡ Some line.items) }
{
    match error {
        SchemaError::Syntax(at) => line(alloc, 1, b"Syntax", at),
        SchemaError::NotSupported(at) => line(alloc, 2, b"NotSupported", at),
        SchemaError::Repeated(at) => line(alloc, 3, b"Repeated", at),
        SchemaError::UnknownName(at) => line(alloc, 4, b"UnknownName", at),
        SchemaError::Cycle(at) => line(alloc, 5, b"Cycle", at),
        SchemaError::BadRedeclaration(at) => line(alloc, 6, b"BadRedeclaration", at),
        SchemaError::Memory => Err(AllocError),
    }
}

fn line(alloc: Global, number: u8, name: &[u8], at: u64) -> Result<Vec<u8>, AllocError>
    ensures { IfOk result (λ line. line.items ≡ schema_line number name.now at) }
{
    let mut line = Vec::new(alloc);
    push(&mut line, b"schema fault ")?;
    push_number(&mut line, u64::from(number))?;
    push(&mut line, b" ")?;
    push(&mut line, name)?;
    push(&mut line, b" at ")?;
    push_number(&mut line, at)?;
    push(&mut line, b"\n")?;
    Ok(line)
}
