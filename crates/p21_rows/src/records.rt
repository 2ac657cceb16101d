//! The rows of records.

ghost use Rattle.std.specs.Prelude.{◌≡◌, ◌++◌, IfOk, List, OnOk, drop, length, replicate};
ghost use Rattle.p21_express.specs.WellFormed.{Origin};
ghost use Rattle.p21_schema.specs.Place.{IsEntityOf, entity_name};
ghost use Rattle.p21_schema.specs.Row.{IsAttributeOf, attribute_at};
ghost use Rattle.p21_tree.specs.Bodies.{AllHaveBodies};
ghost use Rattle.p21_tree.specs.Plain.{plain_all};
ghost use Rattle.p21_tree.specs.Views.{plain_instance, plain_record};
ghost use Rattle.p21_json.specs.Rows.{AreAttributesOf};
ghost use Rattle.p21_rows.specs.Rows.{AreCells, AreRecordCells, IsCellOfFirst};
ghost use Rattle.p21_rows.specs.declared.cell.Cell.{Cell as OneCell};
ghost use Rattle.p21_rows.specs.declared.cell.Cell.TheVariants.{Null};

use crate::cell::{Cell, cell_of, number};
use p21_json::{Terms, attribute, attribute_count, is_logical};
use p21_schema::{AttrId, EntityId};
use p21_tree::{Param, RawInstance, Record};
use std::alloc::{AllocError, Global};

/// The row of a record of the entity: the name of the instance, and the values that the record gives to the attributes of the entity's row.
/// A record of a complex instance gives those that the entity newly declares, which are the last; the others are null.
pub(crate) fn record_cells(
    alloc: Global,
    terms: &Terms<'_>,
    instance: &RawInstance<'_>,
    entity: EntityId,
    record: &Record<'_>,
) -> Result<Vec<Cell>, AllocError>
    requires entity { IsEntityOf terms.now entity }
    requires named { entity_name terms.now entity ≡ record.now.keyword.now }
    ensures { IfOk result (λ cells. AreRecordCells terms.now (plain_instance instance.now) (plain_record record.now) cells.items) }
{
    let count = attribute_count(terms.schema(), instance.complex, entity);
    let width = terms.schema().row_count(entity);
    let mut cells = Vec::with_capacity(alloc, width.saturating_add(1))?;
    cells.push(number(instance.name))?;
    push_nulls(&mut cells, width.saturating_sub(count))?;
    let params = record.params.as_slice();
    push_values(alloc, &mut cells, terms, instance, entity, count, params)?;
    Ok(cells)
}

/// Adds so many nulls.
fn push_nulls(cells: &mut Vec<Cell>, count: usize) -> Result<(), AllocError>
    ensures { OnOk result (cells.new.items ≡ cells.old.items ++ replicate count Null) }
{
    for _ in 0..count {
        cells.push(Cell::Null)?;
    }
    Ok(())
}

/// Adds the values of a record of the entity, which has so many attributes.
fn push_values(
    alloc: Global,
    cells: &mut Vec<Cell>,
    terms: &Terms<'_>,
    instance: &RawInstance<'_>,
    entity: EntityId,
    count: usize,
    params: &[Param<'_>],
) -> Result<(), AllocError>
    requires entity { IsEntityOf terms.now entity }
    requires count { (os : List Origin) × (AreAttributesOf terms.now instance.now.complex entity os × (count ≡ length os)) }
    requires bodies { AllHaveBodies params.now }
    ensures { (os : List Origin) → AreAttributesOf terms.now instance.now.complex entity os → (count ≡ length os) → OnOk result ((values : List OneCell) × (AreCells terms.now (plain_instance instance.now) os (plain_all params.now) values × (cells.new.items ≡ cells.old.items ++ values))) }
{
    for position in 0..count {
        let attribute = attribute(terms.schema(), instance.complex, entity, position);
        cells.push(value(alloc, terms, instance, attribute, params, position)?)?;
    }
    Ok(())
}

/// The value that the parameter at a place gives to an attribute; null where there is none.
fn value(
    alloc: Global,
    terms: &Terms<'_>,
    instance: &RawInstance<'_>,
    attribute: AttrId,
    params: &[Param<'_>],
    position: usize,
) -> Result<Cell, AllocError>
    requires attribute { IsAttributeOf terms.now attribute }
    requires bodies { AllHaveBodies params.now }
    ensures { IfOk result (IsCellOfFirst terms.now (plain_instance instance.now) (attribute_at terms.now attribute) (plain_all (drop position params.now))) }
{
    let Some(param) = params.get(position) else {
        return Ok(Cell::Null);
    };
    let logical = is_logical(terms, instance, attribute);
    cell_of(alloc, terms, param, logical)
}
