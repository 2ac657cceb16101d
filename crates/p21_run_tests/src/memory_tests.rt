//! Reading where a request for memory is refused.

use crate::all_faults_tests::{Answer as All, fault, read_in};
use crate::files::Answer::{Instances, Memory};
use crate::files::answered;
use p21_crew::OpenGate;
use p21_desk::LaneCount;
use p21_express::read_declarations;
use p21_lanes::Capacity;
use p21_reader::{ReadError, read_lanes, read_serial};
use p21_schema::{Rules, Schema};
use p21_tree::FaultKind;
use std::alloc::Global;
use std::test::Fail;

/// A small schema of two dozen declarations.
const TOY: &[u8] = b"SCHEMA TOY;\n\
(* small schema (* with a nested remark *) *)\n\
TYPE Code = STRING(4) FIXED; END_TYPE;\n\
TYPE Label = STRING; WHERE wr1 : LENGTH(SELF) > 0; END_TYPE;\n\
TYPE Tag = STRING(1); END_TYPE;\n\
TYPE Tally = INTEGER; END_TYPE;\n\
TYPE Colour = ENUMERATION OF (Red, Green); END_TYPE;\n\
TYPE Unit_Name = ENUMERATION OF (Metre, Second); END_TYPE;\n\
TYPE Simple = SELECT (Label, Tally); END_TYPE;\n\
TYPE Any_Value = SELECT (Simple, Colour, Item); END_TYPE;\n\
ENTITY Root ABSTRACT SUPERTYPE OF (Item); -- the root\n\
  Id : Code;\n\
  Name : OPTIONAL Label;\n\
END_ENTITY;\n\
ENTITY Item SUBTYPE OF (Root);\n\
  Next : OPTIONAL Item;\n\
INVERSE\n\
  Held : SET [0:?] OF Group FOR Members;\n\
END_ENTITY;\n\
ENTITY Special SUBTYPE OF (Item); END_ENTITY;\n\
ENTITY Extra SUBTYPE OF (Special); END_ENTITY;\n\
ENTITY Chain SUBTYPE OF (Item);\n\
  SELF\\Item.Next : Special;\n\
END_ENTITY;\n\
ENTITY Owner; Owns : Special; END_ENTITY;\n\
ENTITY Group; Members : SET [1:3] OF Item; END_ENTITY;\n\
ENTITY Mark; Text : Tag; END_ENTITY;\n\
ENTITY Note; Text : Label; END_ENTITY;\n\
ENTITY Prop; Holds : Any_Value; END_ENTITY;\n\
ENTITY Named_Unit; Dims : Mark; Kind : Unit_Name; END_ENTITY;\n\
ENTITY Siunit SUBTYPE OF (Named_Unit);\n\
DERIVE\n\
  SELF\\Named_Unit.Dims : Mark := ?;\n\
END_ENTITY;\n\
ENTITY Base ABSTRACT SUPERTYPE; B : INTEGER; END_ENTITY;\n\
ENTITY Left SUBTYPE OF (Base); L : INTEGER; END_ENTITY;\n\
ENTITY Right SUBTYPE OF (Base); R : BOOLEAN; END_ENTITY;\n\
ENTITY Both SUBTYPE OF (Left, Right); D : INTEGER; END_ENTITY;\n\
ENTITY Sizes;\n\
  N : NUMBER;\n\
  X : REAL;\n\
  G : LOGICAL;\n\
  A : ARRAY [0:1] OF OPTIONAL INTEGER;\n\
  M : BINARY(6);\n\
END_ENTITY;\n\
FUNCTION f(x : INTEGER) : INTEGER;\n\
  FUNCTION g : INTEGER; RETURN (1); END_FUNCTION;\n\
  RETURN (g);\n\
END_FUNCTION;\n\
END_SCHEMA;\n";

/// A file of five instances.
const FILE: &[u8] =
    b"ISO-10303-21;HEADER;FILE_DESCRIPTION((''),'2;1');FILE_NAME('','',(''),(''),'','','');FILE_SCHEMA(('TOY'));ENDSEC;DATA;#1=ITEM('A001',$,#3);#2=PROP(LABEL('x'));#3=SPECIAL('A003','t',$);#4=(BASE(1)LEFT(2)RIGHT(.T.));#5=GROUP((#1,#3));ENDSEC;END-ISO-10303-21;";

/// The table of the small schema.
pub(crate) fn toy(alloc: Global) -> Option<Schema> {
    let declarations = read_declarations(alloc, TOY).ok()?;
    Schema::build(alloc, declarations, Rules::default()).ok()
}

/// Its answer is right also where a request for memory is refused, which `tests/refused_memory_of_libraries` does in turn.
#[test]
fn memory_or_the_answer(rt: HostRuntime) {
    let Some(schema) = toy(rt.alloc()) else {
        return;
    };
    match read_serial(rt.alloc(), &schema, FILE) {
        Ok(reading) => {
            assert!(rt; matches!(&reading.answer, Ok(model) if model.len() == 5));
        }
        Err(error) => assert_eq!(rt; error, ReadError::Memory),
    }
}

/// By lanes too it is right, and comes, where a request for memory is refused.
#[test]
fn memory_or_the_answer_by_lanes(rt: HostRuntime) {
    let alloc = rt.alloc();
    let Some(schema) = toy(alloc) else {
        return;
    };
    for lanes in [1, 2] {
        let (Some(lanes), Some(capacity)) = (LaneCount::new(lanes), Capacity::new(1)) else {
            panic!(rt; "one or two lanes of one place");
        };
        let reading = read_lanes(&rt, alloc, &schema, &OpenGate, FILE, lanes, capacity);
        assert!(rt; matches!(answered(&reading), Instances(5) | Memory));
    }
}

/// Two instances of one name, the first of which has a fault by itself.
const FAULTY: &[u8] =
    b"ISO-10303-21;HEADER;FILE_DESCRIPTION((''),'2;1');FILE_NAME('','',(''),(''),'','','');FILE_SCHEMA(('TOY'));ENDSEC;DATA;#1=MARK($);#1=MARK('a');ENDSEC;END-ISO-10303-21;";

/// With all faults too it is right, and comes, where a request for memory is refused.
#[test]
fn memory_or_the_answer_with_all(rt: HostRuntime) -> Result<(), Fail> {
    let alloc = rt.alloc();
    let Some(schema) = toy(alloc) else {
        return Ok(());
    };
    let faults = All::Faults([
        fault(FaultKind::BadAttribute { rec: 0, attr: 0 }, 118),
        fault(FaultKind::DuplicateName, 129),
        None,
    ]);
    for (file, want) in [(FILE, All::Instances(5)), (FAULTY, faults)] {
        for lanes in [1, 2] {
            let answer = read_in(&rt, alloc, &schema, &OpenGate, file, lanes)?;
            assert!(rt; answer == want || answer == All::Memory);
        }
    }
    Ok(())
}
