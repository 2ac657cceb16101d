//! The first fault of the pieces by example: each row is a file, read by one thread and by two lanes.

use crate::files::Answer::{Fault, Instances};
use crate::files::{Answer, TAIL, TWO, answered, file, toy};
use crate::judges::SecondAtFault;
use crate::lanes_tests::read_by;
use p21_crew::OpenGate;
use p21_reader::{LocalReader, read_serial};
use p21_tree::FaultKind;
use std::test::Fail;

const BAD: FaultKind = FaultKind::BadAttribute { rec: 0, attr: 0 };

/// What stands between the preface and the tail, the tail, and what is read of the file.
const ROWS: [(&[u8], &[u8], Answer); 8] = [
    (b"", TAIL, Instances(0)),
    (TWO, TAIL, Instances(2)),
    (
        b"#1=MARK('a');",
        b"ENDSEC;",
        Fault(FaultKind::Truncated, 138),
    ),
    (
        b"#1=MARK('a');#5=MARK($);#9=MARK('a';",
        TAIL,
        Fault(BAD, 131),
    ),
    (
        b"#1=MARK('a';#5=MARK($);",
        TAIL,
        Fault(FaultKind::Unexpected, 129),
    ),
    (
        b"#7=MARK('a');#007=MARK('a');",
        TAIL,
        Fault(FaultKind::DuplicateName, 131),
    ),
    (
        b"#7=MARK('a');#7=MARK($);",
        TAIL,
        Fault(FaultKind::DuplicateName, 131),
    ),
    (b"#7=MARK($);#7=MARK('a');", TAIL, Fault(BAD, 118)),
];

#[test]
fn first_fault_of_the_pieces(rt: HostRuntime) -> Result<(), Fail> {
    let alloc = rt.alloc();
    let schema = toy(alloc)?;
    let local = LocalReader { schema: &schema };
    for (between, tail, want) in ROWS {
        let file = file(alloc, between, tail)?;
        assert_eq!(rt; answered(&read_serial(alloc, &schema, &file)), want);
        assert_eq!(rt;
            read_by(&rt, alloc, &schema, &local, &OpenGate, &file, 2)?,
            want
        );
    }
    Ok(())
}

#[test]
fn judge_is_asked(rt: HostRuntime) -> Result<(), Fail> {
    let alloc = rt.alloc();
    let schema = toy(alloc)?;
    let judge = SecondAtFault(LocalReader { schema: &schema });
    let two = file(alloc, TWO, TAIL)?;
    assert_eq!(rt;
        read_by(&rt, alloc, &schema, &judge, &OpenGate, &two, 2)?,
        Fault(BAD, 131)
    );
    Ok(())
}
