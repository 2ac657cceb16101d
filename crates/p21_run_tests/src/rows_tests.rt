//! Rows that a taker in memory takes: what a run gives to one that tells its calls.

use crate::calls::Call;
use crate::files::{TAIL, TOY, TWO, file};
use crate::streams::{Bytes, Text};
use p21_crew::OpenGate;
use p21_desk::LaneCount;
use p21_hash::HashKey;
use p21_rows::{About, Cell, InputError, Layout, Options, Outcome, Rows, Table, export_rows};
use p21_run::Silent;
use p21_schema::Rules;
use std::alloc::Global;
use std::sync::Wait;
use std::test::Fail;
use std::thread::Threads;

/// A taker of rows that keeps its calls, and tells them.
#[derive(Drop)]
struct Kept {
    calls: Vec<Call>,
}

impl Rows for Kept {
    ghost use Rattle.std.specs.Prelude.{Some, false, map};
    ghost use Rattle.p21_run_tests.specs.Kept.{step};

    ghost taken = { λ kept. Some (map step kept.calls.items) };

    ghost marked = { λ _. false };

    fn begin(&mut self, _layout: &Layout<'_, '_>) -> Result<(), InputError> {
        self.keep(Call::Begun)
    }

    fn insert(&mut self, table: Table, cells: Vec<Cell>) -> Result<(), InputError> {
        self.keep(Call::Given(table, cells))
    }

    fn end(&mut self) -> Result<(), InputError> {
        self.keep(Call::Ended)
    }
}

impl Kept {
    ghost use Rattle.std.specs.Prelude.{◌≡◌, ◌∷◌, ◌++◌, [], IfErr, OnOk};
    ghost use Rattle.p21_run.specs.declared.input.InputError.TheVariants.{Memory};

    /// Puts a call after the others. It is refused for lack of memory alone.
    fn keep(&mut self, call: Call) -> Result<(), InputError>
        ensures kept { OnOk result (self.new.calls.items ≡ self.old.calls.items ++ call ∷ []) }
        ensures refused { IfErr result (λ e. e ≡ Memory) }
    {
        match self.calls.push(call) {
            Ok(()) => Ok(()),
            Err(_) => Err(InputError::Memory),
        }
    }

    /// How many rows it took of a table.
    fn count(&self, of: Table) -> usize {
        self.calls
            .iter()
            .filter(|call| matches!(call, Call::Given(table, _) if *table == of))
            .count()
    }
}

/// What a taker was asked in a run over the small schema.
fn taken<R: Threads + Wait + Sync>(
    rt: &R,
    alloc: Global,
    between: &[u8],
    told: &mut Text,
) -> Result<(Outcome, Kept), Fail> {
    let file = file(alloc, between, TAIL)?;
    let options = Options {
        gate: &OpenGate,
        lanes: LaneCount::new(2).ok_or("1 to 64 lanes")?,
        capacity: None,
        all: false,
        rules: Rules::default(),
        key: HashKey::default(),
    };
    let about = About {
        program: "a program",
        file: "a file",
    };
    let mut kept = Kept {
        calls: Vec::new(alloc),
    };
    let outcome = export_rows(
        rt,
        alloc,
        &options,
        &about,
        &mut Bytes::new(TOY),
        &mut Bytes::new(&file),
        &mut kept,
        told,
        &mut Silent,
    );
    Ok((outcome, kept))
}

#[test]
fn rows_of_a_model(rt: HostRuntime) -> Result<(), Fail> {
    let alloc = rt.alloc();
    let mut told = Text::new(alloc);
    let (outcome, kept) = taken(&rt, alloc, TWO, &mut told)?;
    assert_eq!(rt; outcome, Outcome::Complete);
    assert_eq!(rt; kept.count(Table::Instances), 2);
    assert_eq!(rt; kept.count(Table::References), 0);
    assert!(rt; told.as_slice().is_empty());
    assert!(rt; matches!(kept.calls.first(), Some(Call::Begun)));
    assert!(rt; matches!(kept.calls.last(), Some(Call::Ended)));
    Ok(())
}

#[test]
fn no_rows_of_a_fault(rt: HostRuntime) -> Result<(), Fail> {
    let alloc = rt.alloc();
    let mut told = Text::new(alloc);
    let (outcome, kept) = taken(&rt, alloc, b"#1=MARK($);", &mut told)?;
    assert_eq!(rt; outcome, Outcome::Faulty);
    assert!(rt; kept.calls.is_empty());
    assert!(rt; told.as_slice().starts_with(b"fault 12 BadAttribute at "));
    Ok(())
}
