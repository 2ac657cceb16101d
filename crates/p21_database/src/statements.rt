//! The statements that make tables and their rows.

ghost use Rattle.p21_schema.specs.Place.{IsEntityOf};

use crate::affinity::affinity_of;
use p21_json::Terms;
use p21_rows::Layout;
use p21_schema::EntityId;
use std::alloc::{AllocError, Global};

/// The name of a table that is of no entity: with `_` in front where an entity of the schema is called so.
pub(crate) fn own_name(alloc: Global, terms: &Terms<'_>, name: &str) -> Result<String, AllocError> {
    if is_entity(terms, name) {
        format!(in alloc; "_{name}")
    } else {
        String::from_str(alloc, name)
    }
}

/// Whether an entity of the schema has this name, but for the case of letters.
fn is_entity(terms: &Terms<'_>, name: &str) -> bool {
    let schema = terms.schema();
    for place in 0..schema.declared().entities.len() {
        if let Some(entity) = schema.entity_at(place)
            && terms.entity(entity).eq_ignore_ascii_case(name)
        {
            return true;
        }
    }
    false
}

/// The name of the table of the records of an entity: that of its view, and `.own`.
pub(crate) fn table_name(
    alloc: Global,
    terms: &Terms<'_>,
    entity: EntityId,
) -> Result<String, AllocError>
    requires { IsEntityOf terms.now entity }
{
    let mut name = entity_name(alloc, terms, entity)?;
    name.push_str(".own")?;
    Ok(name)
}

/// The name of the view of an entity: with `_` in front where SQLite keeps the name for itself.
pub(crate) fn entity_name(
    alloc: Global,
    terms: &Terms<'_>,
    entity: EntityId,
) -> Result<String, AllocError>
    requires { IsEntityOf terms.now entity }
{
    let name = terms.entity(entity);
    if is_kept(name) {
        format!(in alloc; "_{name}")
    } else {
        String::from_str(alloc, name)
    }
}

/// Whether a name begins with `sqlite_`, but for the case of letters.
fn is_kept(name: &str) -> bool {
    match name.as_bytes().get(..7) {
        Some(first) => first.eq_ignore_ascii_case(b"sqlite_"),
        None => false,
    }
}

/// The statement that makes the table of an entity.
pub(crate) fn create_table(
    alloc: Global,
    terms: &Terms<'_>,
    layout: &Layout<'_, '_>,
    entity: EntityId,
    name: &str,
) -> Result<String, AllocError>
    requires { IsEntityOf terms.now entity }
{
    let schema = terms.schema();
    let columns = layout.columns(entity);
    let mut sql = format!(in alloc; "CREATE TABLE \"{name}\" (\"id\" INTEGER PRIMARY KEY")?;
    for position in 0..schema.row_count(entity).min(columns.len()) {
        let attribute = schema.row(entity, position);
        let word = if position < REALS {
            affinity_of(schema, attribute).word()
        } else {
            ""
        };
        push_column(alloc, &mut sql, columns[position].as_str(), word)?;
    }
    sql.push(')')?;
    Ok(sql)
}

/// Behind so many columns none is declared as REAL, which the writer takes only in front.
const REALS: usize = 62;

/// Adds a column that is declared so.
fn push_column(alloc: Global, sql: &mut String, name: &str, word: &str) -> Result<(), AllocError> {
    let column = format!(in alloc; ", \"{name}\"{word}")?;
    sql.push_str(column.as_str())
}

/// The statement that adds so many rows of so many values to a table, at least one of one.
pub(crate) fn insert(
    alloc: Global,
    name: &str,
    rows: usize,
    count: usize,
) -> Result<String, AllocError> {
    let row = row_of(alloc, count)?;
    let mut sql = format!(in alloc; "INSERT INTO \"{name}\" VALUES {row}")?;
    for _ in 1..rows {
        sql.push_str(", ")?;
        sql.push_str(row.as_str())?;
    }
    Ok(sql)
}

/// A row of so many values, at least one.
fn row_of(alloc: Global, count: usize) -> Result<String, AllocError> {
    let mut row = String::from_str(alloc, "(?")?;
    for _ in 1..count {
        row.push_str(", ?")?;
    }
    row.push(')')?;
    Ok(row)
}
