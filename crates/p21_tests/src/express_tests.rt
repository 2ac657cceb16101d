//! Schemas where a request for memory is refused.

use p21_express::{SchemaError, read_declarations};
use std::test::*;

/// Its answer is right also where a request for memory is refused, which `tests/refused_memory_of_libraries` does in turn.
#[test]
fn memory_or_the_answer(rt: HostRuntime) {
    let text =
        b"SCHEMA s; TYPE t = LIST [0:?] OF a; END_TYPE; TYPE e = ENUMERATION OF (x, y); END_TYPE; TYPE c = SELECT (t, e, a); END_TYPE; ENTITY a ABSTRACT SUPERTYPE OF (b); x : OPTIONAL c; END_ENTITY; ENTITY b SUBTYPE OF (a); SELF\\a.x : t; DERIVE y : INTEGER := 1; END_ENTITY; END_SCHEMA;";
    match read_declarations(rt.alloc(), text) {
        Ok(declarations) => {
            assert_eq!(rt; declarations.types.len(), 3);
            assert_eq!(rt; declarations.entities.len(), 2);
        }
        Err(error) => assert_eq!(rt; error, SchemaError::Memory),
    }
}
