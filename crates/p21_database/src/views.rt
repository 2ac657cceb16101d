//! The view of an entity: the instances that are of it or of a subtype of it.

ghost use Rattle.p21_schema.specs.Place.{IsEntityOf};
ghost use Rattle.p21_schema.specs.Row.{IsAttributeOf};

use crate::statements::{entity_name, own_name, table_name};
use p21_json::Terms;
use p21_rows::{Layout, columns_of};
use p21_schema::{AttrId, EntityId, Schema};
use std::alloc::{AllocError, Global};

/// So many parts of a view stand side by side at most: SQLite takes 500.
const TOGETHER: usize = 400;

/// The statement that makes the view of an entity: a part for its complex instances, and one for each table at or below it that has rows of
/// simple ones. None where there are none, if no empty view is wanted.
pub(crate) fn create_view(
    alloc: Global,
    terms: &Terms<'_>,
    layout: &Layout<'_, '_>,
    entity: EntityId,
    with_empty: bool,
) -> Result<Option<String>, AllocError>
    requires { IsEntityOf terms.now entity }
{
    let mut parts = Vec::new(alloc);
    let columns = columns_of(alloc, terms, entity)?;
    let names = columns.names.as_slice();
    if layout.use_of(entity).complex {
        parts.push(complex_part(alloc, terms, layout, entity, names)?)?;
    }
    push_parts(alloc, &mut parts, terms, layout, entity, names)?;
    if parts.is_empty() {
        if !with_empty {
            return Ok(None);
        }
        parts.push(empty_part(alloc, names)?)?;
    }
    let name = entity_name(alloc, terms, entity)?;
    let mut sql = format!(in alloc; "CREATE VIEW \"{name}\" AS ")?;
    push_union(&mut sql, parts.as_slice())?;
    Ok(Some(sql))
}

/// The part of a view that has no instances.
fn empty_part(alloc: Global, names: &[String]) -> Result<String, AllocError> {
    let mut sql = String::from_str(alloc, "SELECT NULL AS \"id\", NULL AS \"entity\"")?;
    for name in names {
        let part = format!(in alloc; ", NULL AS \"{name}\"")?;
        sql.push_str(part.as_str())?;
    }
    sql.push_str(" WHERE 0")?;
    Ok(sql)
}

/// Adds the parts of a view that are of simple instances.
fn push_parts(
    alloc: Global,
    parts: &mut Vec<String>,
    terms: &Terms<'_>,
    layout: &Layout<'_, '_>,
    entity: EntityId,
    names: &[String],
) -> Result<(), AllocError>
    requires { IsEntityOf terms.now entity }
{
    let schema = terms.schema();
    for place in 0..schema.declared().entities.len() {
        if let Some(table) = schema.entity_at(place)
            && layout.use_of(table).simple
            && schema.is_a(table, entity)
        {
            parts.push(simple_part(alloc, terms, layout, entity, names, table)?)?;
        }
    }
    Ok(())
}

/// Adds all rows of parts, of which SQLite takes only so many side by side.
fn push_union(sql: &mut String, parts: &[String]) -> Result<(), AllocError> {
    if parts.len() <= TOGETHER {
        return push_joined(sql, parts);
    }
    for (number, group) in parts.chunks(TOGETHER).enumerate() {
        sql.push_str(if number > 0 {
            " UNION ALL SELECT * FROM ("
        } else {
            "SELECT * FROM ("
        })?;
        push_joined(sql, group)?;
        sql.push(')')?;
    }
    Ok(())
}

/// Adds the rows of parts, one after the other.
fn push_joined(sql: &mut String, parts: &[String]) -> Result<(), AllocError> {
    for (number, part) in parts.iter().enumerate() {
        if number > 0 {
            sql.push_str(" UNION ALL ")?;
        }
        sql.push_str(part.as_str())?;
    }
    Ok(())
}

/// The part of a view that is of the simple instances of an entity at or below its own.
fn simple_part(
    alloc: Global,
    terms: &Terms<'_>,
    layout: &Layout<'_, '_>,
    entity: EntityId,
    names: &[String],
    table: EntityId,
) -> Result<String, AllocError>
    requires entity { IsEntityOf terms.now entity }
    requires table { IsEntityOf terms.now table }
{
    let kind = terms.entity(table);
    let mut sql = format!(in alloc; "SELECT o.\"id\", '{kind}' AS \"entity\"")?;
    let schema = terms.schema();
    for position in 0..schema.row_count(entity).min(names.len()) {
        let attribute = schema.row(entity, position);
        let column = column_of(schema, layout.columns(table), table, attribute);
        push_column(alloc, &mut sql, column, names[position].as_str())?;
    }
    let name = table_name(alloc, terms, table)?;
    let from = format!(in alloc; " FROM \"{name}\" AS o")?;
    sql.push_str(from.as_str())?;
    if layout.use_of(table).complex {
        let map = own_name(alloc, terms, "id_map")?;
        let only = format!(in alloc;
            " WHERE (SELECT i.\"entity\" FROM \"{map}\" AS i WHERE i.\"id\" = o.\"id\") = '{kind}'"
        )?;
        sql.push_str(only.as_str())?;
    }
    Ok(sql)
}

/// The part of a view that is of complex instances. Each has a row in the table of each of its records, and the values of an attribute stand in
/// that of the entity that declares it.
fn complex_part(
    alloc: Global,
    terms: &Terms<'_>,
    layout: &Layout<'_, '_>,
    entity: EntityId,
    names: &[String],
) -> Result<String, AllocError>
    requires { IsEntityOf terms.now entity }
{
    let mut sql = String::from_str(alloc, "SELECT o.\"id\", i.\"entity\"")?;
    let schema = terms.schema();
    for position in 0..schema.row_count(entity).min(names.len()) {
        let attribute = schema.row(entity, position);
        let name = names[position].as_str();
        if terms.declaring(attribute) == entity {
            let column = column_of(schema, layout.columns(entity), entity, attribute);
            push_column(alloc, &mut sql, column, name)?;
        } else {
            push_inherited(alloc, &mut sql, terms, layout, attribute, name)?;
        }
    }
    let map = own_name(alloc, terms, "id_map")?;
    let name = table_name(alloc, terms, entity)?;
    let kind = terms.entity(entity);
    let from = format!(in alloc;
        " FROM \"{name}\" AS o JOIN \"{map}\" AS i ON i.\"id\" = o.\"id\""
    )?;
    sql.push_str(from.as_str())?;
    if layout.use_of(entity).simple {
        let others = format!(in alloc; " WHERE i.\"entity\" <> '{kind}'")?;
        sql.push_str(others.as_str())?;
    }
    Ok(sql)
}

/// Adds the column of an attribute out of the table of the entity that declares it, under a name.
fn push_inherited(
    alloc: Global,
    sql: &mut String,
    terms: &Terms<'_>,
    layout: &Layout<'_, '_>,
    attribute: AttrId,
    name: &str,
) -> Result<(), AllocError>
    requires { IsAttributeOf terms.now attribute }
{
    let table = terms.declaring(attribute);
    let column = column_of(terms.schema(), layout.columns(table), table, attribute);
    let from = table_name(alloc, terms, table)?;
    let part = format!(in alloc;
        ", (SELECT t.\"{column}\" FROM \"{from}\" AS t WHERE t.\"id\" = o.\"id\") AS \"{name}\""
    )?;
    sql.push_str(part.as_str())
}

/// The column of an attribute in a table.
fn column_of<'c>(
    schema: &Schema,
    columns: &'c [String],
    table: EntityId,
    attribute: AttrId,
) -> &'c str
    requires { IsEntityOf schema.now table }
{
    for position in 0..schema.row_count(table).min(columns.len()) {
        if schema.row(table, position) == attribute {
            return columns[position].as_str();
        }
    }
    ""
}

/// Adds a column of the table itself under a name.
fn push_column(
    alloc: Global,
    sql: &mut String,
    column: &str,
    name: &str,
) -> Result<(), AllocError> {
    let part = if column == name {
        format!(in alloc; ", o.\"{column}\"")?
    } else {
        format!(in alloc; ", o.\"{column}\" AS \"{name}\"")?
    };
    sql.push_str(part.as_str())
}
