//! Schemas that are mended, by example.

use crate::{Form, MendedText, mended};
use std::alloc::{AllocError, Global};

/// Whether a text was mended to another with changes of these forms at these places.
fn is_mended(found: &MendedText, wanted: &[u8], forms: &[(usize, Form)]) -> bool {
    found.text.as_slice() == wanted
        && found.changes.len() == forms.len()
        && found.changes.iter().zip(forms.iter()).all(|(change, (at, form))| change.at == *at
            && change.form == *form)
}

/// Whether a text is mended to another with changes of these forms at these places, as long as there is memory.
fn gives(alloc: Global, text: &[u8], wanted: &[u8], forms: &[(usize, Form)]) -> bool {
    match mended(alloc, text) {
        Ok(found) => is_mended(&found, wanted, forms),
        Err(_) => false,
    }
}

#[test]
fn each_form_is_mended(rt: HostRuntime) {
    let alloc = rt.alloc();
    let select =
        b"SCHEMA s; TYPE t = u; END_TYPE; TYPE v = t; END_TYPE; TYPE u = SELECT (a); END_TYPE; TYPE w = REAL; END_TYPE; TYPE x = w; END_TYPE;";
    let wanted =
        b"SCHEMA s; TYPE t = SELECT (u); END_TYPE; TYPE v = SELECT (t); END_TYPE; TYPE u = SELECT (a); END_TYPE; TYPE w = REAL; END_TYPE; TYPE x = w; END_TYPE;";
    assert!(rt;
        gives(
            alloc,
            select,
            wanted,
            &[(19, Form::LoneSelect), (41, Form::LoneSelect)]
        )
    );
    let version = b"\xEF\xBB\xBFschema s 'v''1' (* 'v' *); END_SCHEMA;\n\x1A\r\n";
    let wanted = b"   schema s        (* 'v' *); END_SCHEMA;\n \r\n";
    let forms = [
        (0, Form::ByteOrderMark),
        (12, Form::Version),
        (42, Form::EndOfText),
    ];
    assert!(rt; gives(alloc, version, wanted, &forms));
    let entities =
        b"SCHEMA s; ENTITY a ABSTRACT; END_ENTITY; ENTITY b ABSTRACT SUBTYPE OF (a); SELF\\a.x RENAMED y : REAL; END_ENTITY;";
    let wanted =
        b"SCHEMA s; ENTITY a ABSTRACT SUPERTYPE; END_ENTITY; ENTITY b ABSTRACT SUPERTYPE SUBTYPE OF (a); SELF\\a.x           : REAL; END_ENTITY;";
    let forms = [
        (27, Form::Abstract),
        (59, Form::Abstract),
        (84, Form::Renamed),
    ];
    assert!(rt; gives(alloc, entities, wanted, &forms));
    let types =
        b"SCHEMA s; TYPE t = EXTENSIBLE GENERIC_ENTITY SELECT (a); END_TYPE; TYPE u = EXTENSIBLE ENUMERATION OF (b); END_TYPE;";
    let wanted =
        b"SCHEMA s; TYPE t =                           SELECT (a); END_TYPE; TYPE u =            ENUMERATION OF (b); END_TYPE;";
    let forms = [
        (19, Form::Extensible),
        (30, Form::GenericEntity),
        (76, Form::Extensible),
    ];
    assert!(rt; gives(alloc, types, wanted, &forms));
}

#[test]
fn a_constraint_is_left_out(rt: HostRuntime) {
    let alloc = rt.alloc();
    let text =
        b"SCHEMA s; SUBTYPE_CONSTRAINT c FOR a; ABSTRACT SUPERTYPE;\n TOTAL_OVER (b); END_SUBTYPE_CONSTRAINT; ENTITY a; END_ENTITY;\nENTITY b SUPERTYPE OF (c); END_ENTITY; SUBTYPE_CONSTRAINT d FOR b; ONEOF (c, d); END_SUBTYPE_CONSTRAINT; SUBTYPE_CONSTRAINT e FOR b; ABSTRACT SUPERTYPE; END_SUBTYPE_CONSTRAINT;";
    let wanted =
        b"SCHEMA s;                                                \n                                         ENTITY a ABSTRACT SUPERTYPE; END_ENTITY;\nENTITY b ABSTRACT SUPERTYPE OF (c); END_ENTITY;                                                                                                                                          ";
    let forms = [
        (10, Form::AbstractConstraint),
        (160, Form::Constraint),
        (226, Form::AbstractConstraint),
    ];
    assert!(rt; gives(alloc, text, wanted, &forms));
}

#[test]
fn what_need_not_be_mended_stays(rt: HostRuntime) {
    let alloc = rt.alloc();
    for text in [
        b"".as_slice(),
        b"SCHEMA s; (* TYPE t = u; (* ENTITY a ABSTRACT; *) TYPE u = SELECT (a); *) TYPE u = SELECT (a); END_TYPE; END_SCHEMA;",
        b"SCHEMA s; -- ENTITY a ABSTRACT;\nFUNCTION f; SUBTYPE_CONSTRAINT c FOR a; END_SUBTYPE_CONSTRAINT; END_FUNCTION; END_SCHEMA;",
        b"SCHEMA s; ENTITY a; renamed, x : STRING; DERIVE y : STRING := '; SELF\\a.x RENAMED y : '; WHERE SELF\\a.x RENAMED y : a; END_ENTITY; END_SCHEMA;",
        b"SCHEMA s; USE FROM t; TYPE u = EXTENSIBLE SELECT (a); END_TYPE; END_SCHEMA;",
        b"SCHEMA s; TYPE u = EXTENSIBLE SELECT (a); END_TYPE; TYPE v = SELECT BASED_ON u WITH (b); END_TYPE; END_SCHEMA;",
        b"SCHEMA s; SUBTYPE_CONSTRAINT c FOR a; ABSTRACT SUPERTYPE; END_SUBTYPE_CONSTRAINT; END_SCHEMA;",
    ] {
        assert!(rt; gives(alloc, text, text, &[]));
    }
}

#[test]
fn forms_that_stay_are_named(rt: HostRuntime) {
    let text =
        b"SCHEMA s; USE FROM t; TYPE u = EXTENSIBLE SELECT (a); END_TYPE; TYPE v = SELECT BASED_ON u WITH (b); END_TYPE; END_SCHEMA;";
    let left = mended(rt.alloc(), text).map(|it| it.left);
    assert!(rt; left.is_ok_and(|left| left.as_slice() == [10, 31, 80].as_slice()));
}

#[test]
fn memory_or_the_answer(rt: HostRuntime) {
    let text =
        b"SCHEMA s; TYPE t = u; END_TYPE; TYPE u = SELECT (a); END_TYPE; ENTITY a ABSTRACT; END_ENTITY;";
    let wanted =
        b"SCHEMA s; TYPE t = SELECT (u); END_TYPE; TYPE u = SELECT (a); END_TYPE; ENTITY a ABSTRACT SUPERTYPE; END_ENTITY;";
    let forms = [(19, Form::LoneSelect), (80, Form::Abstract)];
    let answered = match mended(rt.alloc(), text) {
        Ok(found) => is_mended(&found, wanted, &forms),
        Err(AllocError) => true,
    };
    assert!(rt; answered);
}
