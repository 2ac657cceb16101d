//! The table of a schema.

use crate::tables::table;
use p21_express::{SchemaError, read_declarations};
use p21_schema::{Rules, Schema};
use std::process::Abort;
use std::test::*;

/// Selects of selects; what stands in an aggregate or in a defined type is not reached.
const SELECTS: &[u8] = b"SCHEMA s;\n\
TYPE p = SELECT (q, l); END_TYPE;\n\
TYPE q = SELECT (r, k); END_TYPE;\n\
TYPE r = SELECT (a, m, a, e); END_TYPE;\n\
TYPE l = STRING; END_TYPE;\n\
TYPE m = n; END_TYPE;\n\
TYPE n = INTEGER; END_TYPE;\n\
TYPE e = ENUMERATION OF (x); END_TYPE;\n\
TYPE k = LIST OF w; END_TYPE;\n\
TYPE w = SELECT (c); END_TYPE;\n\
TYPE o = SELECT (l, z); END_TYPE;\n\
TYPE z = SELECT (m); END_TYPE;\n\
ENTITY a; h : p; END_ENTITY;\n\
ENTITY b SUBTYPE OF (a); i : o; END_ENTITY;\n\
ENTITY c; j : w; END_ENTITY;\n\
END_SCHEMA;\n";

fn check_places(rt: &impl Abort, schema: &Schema) {
    assert_eq!(rt; schema.entity_at(2), schema.entity(b"C"));
    assert_eq!(rt; schema.entity_at(3), None);
    assert_eq!(rt; schema.type_at(2), schema.type_named(b"R"));
    assert_eq!(rt; schema.type_at(11), None);
}

#[test]
fn at_places(rt: HostRuntime) -> Result<(), Fail> {
    let schema = table(rt.alloc(), SELECTS).ok_or("a schema")?;
    check_places(&rt, &schema);
    Ok(())
}

/// Its answer is right also where a request for memory is refused, which `tests/refused_memory_of_libraries` does in turn.
#[test]
fn memory_or_the_answer(rt: HostRuntime) {
    let declarations = match read_declarations(rt.alloc(), SELECTS) {
        Ok(declarations) => declarations,
        Err(error) => {
            assert_eq!(rt; error, SchemaError::Memory);
            return;
        }
    };
    if let Ok(schema) = Schema::build(rt.alloc(), declarations, Rules { distinct: true }) {
        check_places(&rt, &schema);
    }
}
