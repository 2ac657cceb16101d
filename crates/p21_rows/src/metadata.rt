//! What is known of a model as a whole.

ghost use Rattle.std.specs.Prelude.{◌≡◌, ◌≤◌, IfErr, OnOk, length, true};
ghost use Rattle.p21_run.specs.declared.input.InputError.TheVariants.{Device};
ghost use Rattle.p21_tree.specs.Bodies.{AllHaveBodies};
ghost use Rattle.p21_rows.specs.Rows.{AreMetadata, TakesSome};

use crate::cell::{Cell, cell_of, number, text};
use crate::rows::{Rows, Table};
use p21_counts::references_in;
use p21_json::Terms;
use p21_run::InputError;
use p21_tree::{HeaderEntity, Param, Preface, RawInstance};
use std::alloc::{AllocError, Global};

/// What made a model.
#[derive(Clone, Copy, Debug)]
pub struct About<'a> {
    /// The program, and its version.
    pub program: &'a str,
    /// The path of the file.
    pub file: &'a str,
}

/// Gives what is known of a model: the program and the file, the schema, the attributes of the header's first three entities, and how many
/// instances, complex ones and references there are.
pub(crate) fn insert_metadata<D: Rows>(
    alloc: Global,
    terms: &Terms<'_>,
    about: &About<'_>,
    preface: &Preface<'_>,
    instances: &[RawInstance<'_>],
    rows: &mut D,
) -> Result<(), InputError>
    requires { 3 ≤ length preface.now.entities.items }
    ensures taken { OnOk result (TakesSome (D.taken rows.old) (D.taken rows.new) AreMetadata) }
    ensures mark { IfErr result (λ e. e ≡ Device → D.marked rows.new ≡ true) }
{
    insert_text(alloc, rows, "program", about.program.as_bytes())?;
    insert_text(alloc, rows, "file", about.file.as_bytes())?;
    insert_text(alloc, rows, "schema", terms.schema().name())?;
    insert_header(alloc, terms, preface, rows)?;
    insert_count(alloc, rows, "instances", instances.len() as u64)?;
    insert_count(alloc, rows, "complex", complex_count(instances))?;
    insert_count(alloc, rows, "references", reference_count(instances))
}

/// How many instances are complex.
fn complex_count(instances: &[RawInstance<'_>]) -> u64 {
    instances.iter().filter(|instance| instance.complex).count() as u64
}

/// How many instance names are written.
fn reference_count(instances: &[RawInstance<'_>]) -> u64 {
    let mut sum: u64 = 0;
    for instance in instances {
        sum = sum.saturating_add(references_in(instance));
    }
    sum
}

/// Gives the attributes of the header's first three entities.
fn insert_header<D: Rows>(
    alloc: Global,
    terms: &Terms<'_>,
    preface: &Preface<'_>,
    rows: &mut D,
) -> Result<(), InputError>
    requires { 3 ≤ length preface.now.entities.items }
    ensures taken { OnOk result (TakesSome (D.taken rows.old) (D.taken rows.new) AreMetadata) }
    ensures mark { IfErr result (λ e. e ≡ Device → D.marked rows.new ≡ true) }
{
    let [description, name, schema, ..] = preface.entities.as_slice() else {
        unreachable!();
    };
    let keys = [
        "file_description.description",
        "file_description.implementation_level",
    ];
    insert_entity(alloc, terms, rows, &keys, description)?;
    let keys = [
        "file_name.name",
        "file_name.time_stamp",
        "file_name.author",
        "file_name.organization",
        "file_name.preprocessor_version",
        "file_name.originating_system",
        "file_name.authorization",
    ];
    insert_entity(alloc, terms, rows, &keys, name)?;
    insert_entity(
        alloc,
        terms,
        rows,
        &["file_schema.schema_identifiers"],
        schema,
    )
}

/// Gives the parameters of an entity of the header under these keys.
fn insert_entity<D: Rows>(
    alloc: Global,
    terms: &Terms<'_>,
    rows: &mut D,
    keys: &[&str],
    entity: &HeaderEntity<'_>,
) -> Result<(), InputError>
    ensures taken { OnOk result (TakesSome (D.taken rows.old) (D.taken rows.new) AreMetadata) }
    ensures mark { IfErr result (λ e. e ≡ Device → D.marked rows.new ≡ true) }
{
    let params = entity.params.as_slice();
    insert_params(alloc, terms, rows, keys, params)
}

/// Gives parameters under these keys.
fn insert_params<D: Rows>(
    alloc: Global,
    terms: &Terms<'_>,
    rows: &mut D,
    keys: &[&str],
    params: &[Param<'_>],
) -> Result<(), InputError>
    requires { AllHaveBodies params.now }
    ensures taken { OnOk result (TakesSome (D.taken rows.old) (D.taken rows.new) AreMetadata) }
    ensures mark { IfErr result (λ e. e ≡ Device → D.marked rows.new ≡ true) }
{
    for position in 0..keys.len().min(params.len()) {
        let value = cell_of(alloc, terms, &params[position], false)?;
        insert_value(alloc, rows, keys[position], value)?;
    }
    Ok(())
}

/// Gives a text.
fn insert_text<D: Rows>(
    alloc: Global,
    rows: &mut D,
    key: &str,
    value: &[u8],
) -> Result<(), InputError>
    ensures taken { OnOk result (TakesSome (D.taken rows.old) (D.taken rows.new) AreMetadata) }
    ensures mark { IfErr result (λ e. e ≡ Device → D.marked rows.new ≡ true) }
{
    let value = text(alloc, value)?;
    insert_value(alloc, rows, key, value)
}

/// Gives a count.
fn insert_count<D: Rows>(
    alloc: Global,
    rows: &mut D,
    key: &str,
    count: u64,
) -> Result<(), InputError>
    ensures taken { OnOk result (TakesSome (D.taken rows.old) (D.taken rows.new) AreMetadata) }
    ensures mark { IfErr result (λ e. e ≡ Device → D.marked rows.new ≡ true) }
{
    insert_value(alloc, rows, key, number(count))
}

/// Gives a value.
fn insert_value<D: Rows>(
    alloc: Global,
    rows: &mut D,
    key: &str,
    value: Cell,
) -> Result<(), InputError>
    ensures taken { OnOk result (TakesSome (D.taken rows.old) (D.taken rows.new) AreMetadata) }
    ensures mark { IfErr result (λ e. e ≡ Device → D.marked rows.new ≡ true) }
{
    let cells = pair(alloc, key, value)?;
    rows.insert(Table::Metadata, cells)
}

/// The row of a key and a value.
fn pair(alloc: Global, key: &str, value: Cell) -> Result<Vec<Cell>, AllocError> {
    let mut cells = Vec::with_capacity(alloc, 2)?;
    cells.push(text(alloc, key.as_bytes())?)?;
    cells.push(value)?;
    Ok(cells)
}
