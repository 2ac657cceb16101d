//! The rows of instances.

ghost use Rattle.std.specs.Prelude.{◌≡◌, ◌<◌, ◌++◌, ◌∷◌, IfErr, IfOk, OnOk, map, string_bytes, true};
ghost use Rattle.std.specs.List.{AllByRecursion};
ghost use Rattle.p21_express.specs.WellFormed.{IsEntity};
ghost use Rattle.p21_json.specs.Instances.{AreKnown};
ghost use Rattle.p21_run.specs.declared.input.InputError.TheVariants.{Device};
ghost use Rattle.p21_schema.specs.Place.{IsEntityOf, entity_name};
ghost use Rattle.p21_tree.specs.Views.{plain_instance, plain_record};
ghost use Rattle.p21_rows.specs.Rows.{AreInstanceRows, AreNames, AreRecordRows, IsInstanceRow, RowsOfEach, TakesSome};
ghost use Rattle.p21_rows.specs.declared.rows.Table.TheVariants.{Instances};

use crate::cell::{Cell, number};
use crate::layout::Layout;
use crate::records::record_cells;
use crate::references::insert_references;
use crate::rows::{Rows, Table};
use p21_json::Terms;
use p21_run::InputError;
use p21_schema::{EntityId, Schema};
use p21_tree::{RawInstance, Record};
use std::alloc::{AllocError, Global};

/// Gives the rows of instances, in order.
pub(crate) fn insert_instances<D: Rows>(
    alloc: Global,
    terms: &Terms<'_>,
    layout: &Layout<'_, '_>,
    instances: &[RawInstance<'_>],
    rows: &mut D,
) -> Result<(), InputError>
    requires { AllByRecursion (λ i. AreKnown terms.now i.records) (map plain_instance instances.now) }
    ensures taken { OnOk result (TakesSome (D.taken rows.old) (D.taken rows.new) (RowsOfEach (AreInstanceRows terms.now) (map plain_instance instances.now))) }
    ensures mark { IfErr result (λ e. e ≡ Device → D.marked rows.new ≡ true) }
{
    for instance in instances {
        insert_instance(alloc, terms, layout, instance, rows)?;
    }
    Ok(())
}

/// Gives the row of an instance, and those of its records.
fn insert_instance<D: Rows>(
    alloc: Global,
    terms: &Terms<'_>,
    layout: &Layout<'_, '_>,
    instance: &RawInstance<'_>,
    rows: &mut D,
) -> Result<(), InputError>
    requires { AreKnown terms.now (plain_instance instance.now).records }
    ensures taken { OnOk result (TakesSome (D.taken rows.old) (D.taken rows.new) (AreInstanceRows terms.now (plain_instance instance.now))) }
    ensures mark { IfErr result (λ e. e ≡ Device → D.marked rows.new ≡ true) }
{
    let records = instance.records.as_slice();
    let names = entity_names(alloc, terms, records)?;
    let cells = instance_cells(alloc, instance, names)?;
    rows.insert(Table::Instances, cells)?;
    insert_records(alloc, terms, layout, instance, records, rows)
}

/// The row of an instance of entities of these names: its name, these, and its place.
fn instance_cells(
    alloc: Global,
    instance: &RawInstance<'_>,
    names: String,
) -> Result<Vec<Cell>, AllocError>
    ensures { AreNames (plain_instance instance.now).records (string_bytes names) → IfOk result (λ cells. IsInstanceRow (plain_instance instance.now) (record { table = Instances; cells = cells.items })) }
{
    let mut cells = Vec::with_capacity(alloc, 3)?;
    cells.push(number(instance.name))?;
    cells.push(Cell::Text(names.into_bytes()))?;
    cells.push(number(instance.at))?;
    Ok(cells)
}

/// The names of the entities of records, with `+` between them.
fn entity_names(
    alloc: Global,
    terms: &Terms<'_>,
    records: &[Record<'_>],
) -> Result<String, AllocError>
    requires { AreKnown terms.now (map plain_record records.now) }
    ensures { IfOk result (λ text. AreNames (map plain_record records.now) (string_bytes text)) }
{
    let mut names = String::new(alloc);
    for position in 0..records.len() {
        let entity = entity_of(terms.schema(), &records[position]);
        push_name(&mut names, position, terms.entity(entity))?;
    }
    Ok(names)
}

/// Adds the name at a place: after a `+` where it is not the first.
fn push_name(names: &mut String, position: usize, name: &str) -> Result<(), AllocError>
    ensures first { position ≡ 0 → OnOk result (string_bytes names.new ≡ string_bytes names.old ++ name.now) }
    ensures next { 0 < position → OnOk result (string_bytes names.new ≡ string_bytes names.old ++ 43 ∷ name.now) }
{
    if position > 0 {
        names.push('+')?;
    }
    names.push_str(name)
}

/// The entity of a record whose keyword is one.
fn entity_of(schema: &Schema, record: &Record<'_>) -> EntityId
    requires { IsEntity schema.now record.now.keyword.now }
    ensures { IsEntityOf schema.now result × (entity_name schema.now result ≡ record.now.keyword.now) }
{
    schema.entity(record.keyword).unwrap()
}

/// Gives the rows of records of an instance, in order.
fn insert_records<D: Rows>(
    alloc: Global,
    terms: &Terms<'_>,
    layout: &Layout<'_, '_>,
    instance: &RawInstance<'_>,
    records: &[Record<'_>],
    rows: &mut D,
) -> Result<(), InputError>
    requires { AreKnown terms.now (map plain_record records.now) }
    ensures taken { OnOk result (TakesSome (D.taken rows.old) (D.taken rows.new) (RowsOfEach (AreRecordRows terms.now (plain_instance instance.now)) (map plain_record records.now))) }
    ensures mark { IfErr result (λ e. e ≡ Device → D.marked rows.new ≡ true) }
{
    for record in records {
        insert_record(alloc, terms, layout, instance, record, rows)?;
    }
    Ok(())
}

/// Gives the row of a record, and those of its references.
fn insert_record<D: Rows>(
    alloc: Global,
    terms: &Terms<'_>,
    layout: &Layout<'_, '_>,
    instance: &RawInstance<'_>,
    record: &Record<'_>,
    rows: &mut D,
) -> Result<(), InputError>
    requires { IsEntity terms.now record.now.keyword.now }
    ensures taken { OnOk result (TakesSome (D.taken rows.old) (D.taken rows.new) (AreRecordRows terms.now (plain_instance instance.now) (plain_record record.now))) }
    ensures mark { IfErr result (λ e. e ≡ Device → D.marked rows.new ≡ true) }
{
    let entity = entity_of(terms.schema(), record);
    let params = record.params.as_slice();
    let columns = given(layout.columns(entity), instance.complex, params.len());
    let cells = record_cells(alloc, terms, instance, entity, record)?;
    rows.insert(Table::Entity(entity), cells)?;
    insert_references(alloc, rows, instance.name, columns, params)
}

/// The columns that a record gives, by so many parameters: all, or in a complex instance the last.
fn given(columns: &[String], complex: bool, count: usize) -> &[String] {
    if !complex {
        return columns;
    }
    let (_, last) = columns.split_at(columns.len().saturating_sub(count));
    last
}
