//! The references of records.

ghost use Rattle.std.specs.Prelude.{◌≡◌, ◌++◌, ◌∷◌, [], IfErr, IfOk, OnOk, List, map, true};
ghost use Rattle.p21_run.specs.declared.input.InputError.TheVariants.{Device};
ghost use Rattle.p21_tree.specs.Plain.{plain, plain_all};
ghost use Rattle.p21_rows.specs.Rows.{AreReferenceRows, AreReferencesOf, IsReferenceRow, RowsOfEach, TakesSome, all_targets, targets as targets_of};
ghost use Rattle.p21_rows.specs.declared.rows.Table.TheVariants.{References};

use crate::cell::{Cell, number, text};
use crate::rows::{Rows, Table};
use p21_run::InputError;
use p21_tree::Param;
use std::alloc::{AllocError, Global};

/// Gives the references in the parameters of a record, which are for these columns, of the instance of this name.
pub(crate) fn insert_references<D: Rows>(
    alloc: Global,
    rows: &mut D,
    source: u64,
    columns: &[String],
    params: &[Param<'_>],
) -> Result<(), InputError>
    ensures taken { OnOk result (TakesSome (D.taken rows.old) (D.taken rows.new) (RowsOfEach (AreReferencesOf source) (map plain params.now))) }
    ensures mark { IfErr result (λ e. e ≡ Device → D.marked rows.new ≡ true) }
{
    for position in 0..params.len() {
        let mut targets = Vec::new(alloc);
        push_targets(&mut targets, &params[position])?;
        let column = column_at(columns, position);
        insert_targets(alloc, rows, source, column, targets.as_slice())?;
    }
    Ok(())
}

/// The column at a place.
fn column_at(columns: &[String], position: usize) -> &str {
    match columns.get(position) {
        Some(column) => column.as_str(),
        None => "",
    }
}

/// Gives the references to these instances in a column.
fn insert_targets<D: Rows>(
    alloc: Global,
    rows: &mut D,
    source: u64,
    column: &str,
    targets: &[u64],
) -> Result<(), InputError>
    ensures taken { OnOk result (TakesSome (D.taken rows.old) (D.taken rows.new) (AreReferenceRows source column.now 0 targets.now)) }
    ensures mark { IfErr result (λ e. e ≡ Device → D.marked rows.new ≡ true) }
{
    for position in 0..targets.len() {
        let target = targets[position];
        let cells = reference_cells(alloc, source, column, position, target)?;
        rows.insert(Table::References, cells)?;
    }
    Ok(())
}

/// The row of a reference.
fn reference_cells(
    alloc: Global,
    source: u64,
    column: &str,
    position: usize,
    target: u64,
) -> Result<Vec<Cell>, AllocError>
    ensures { IfOk result (λ cells. IsReferenceRow source column.now position target (record { table = References; cells = cells.items })) }
{
    let mut cells = Vec::with_capacity(alloc, 4)?;
    cells.push(number(source))?;
    cells.push(text(alloc, column.as_bytes())?)?;
    cells.push(number(position as u64))?;
    cells.push(number(target))?;
    Ok(cells)
}

/// Adds the instance names that are written in a parameter, in order.
#[cycle(targets)]
fn push_targets(targets: &mut Vec<u64>, param: &Param<'_>) -> Result<(), AllocError>
    ensures { OnOk result (targets.new.items ≡ targets.old.items ++ targets_of (plain param.now)) }
{
    match param {
        Param::Ref(name) => {
            targets.push(*name)?;
            Ok(())
        }
        Param::Items(items) => push_all_targets(targets, items),
        Param::Typed(_, inner) => push_targets(targets, inner),
        _ => Ok(()),
    }
}

/// Adds those of each of some parameters.
#[cycle(targets)]
fn push_all_targets(targets: &mut Vec<u64>, params: &[Param<'_>]) -> Result<(), AllocError>
    ensures { OnOk result (targets.new.items ≡ targets.old.items ++ all_targets (plain_all params.now)) }
{
    for param in params {
        push_targets(targets, param)?;
    }
    Ok(())
}
