//! The tables of a model and their columns.

ghost use Rattle.p21_schema.specs.Place.{IsEntityOf};
ghost use Rattle.p21_schema.specs.Row.{IsAttributeOf};

use crate::uses::{Use, uses_of};
use p21_json::Terms;
use p21_schema::{AttrId, EntityId};
use p21_tree::RawInstance;
use std::alloc::{AllocError, Global};

/// The tables of a model: which entities have one, and how its columns are called.
#[derive(Drop)]
pub struct Layout<'t, 's> {
    terms: &'t Terms<'s>,
    /// How each entity is used, in the order of the schema.
    uses: Vec<Use>,
    /// The columns of the table of each; none of one that has no table.
    columns: Vec<TableColumns>,
}

/// The names of the columns of a table after `id`: of each attribute of the entity's row.
#[derive(Debug, Drop)]
pub struct TableColumns {
    pub names: Vec<String>,
}

impl<'t, 's> Layout<'t, 's> {
    /// The tables of the entities of which there are records. Memory alone can fail.
    pub(crate) fn new(
        alloc: Global,
        terms: &'t Terms<'s>,
        instances: &[RawInstance<'_>],
    ) -> Result<Layout<'t, 's>, AllocError> {
        let uses = uses_of(alloc, terms.schema(), instances)?;
        let mut columns = Vec::with_capacity(alloc, uses.len())?;
        for place in 0..uses.len() {
            columns.push(columns_at(alloc, terms, place, uses[place])?)?;
        }
        Ok(Layout {
            terms,
            uses,
            columns,
        })
    }

    /// The names of the schema.
    ///
    /// Tested.
    pub fn terms(&self) -> &'t Terms<'s> {
        self.terms
    }

    /// How an entity is used.
    ///
    /// Tested.
    pub fn use_of(&self, entity: EntityId) -> Use {
        match self.uses.get(entity.place()) {
            Some(found) => *found,
            None => Use {
                simple: false,
                complex: false,
            },
        }
    }

    /// Whether an entity has a table.
    ///
    /// Tested.
    pub fn has_table(&self, entity: EntityId) -> bool {
        self.use_of(entity).has_table()
    }

    /// The names of the columns that the table of an entity has after `id`; none where it has no table.
    ///
    /// Tested.
    pub fn columns(&self, entity: EntityId) -> &[String] {
        match self.columns.get(entity.place()) {
            Some(found) => found.names.as_slice(),
            None => &[],
        }
    }
}

/// The columns of the table of the entity at a place of the schema, which is used so; none where it has no table.
fn columns_at(
    alloc: Global,
    terms: &Terms<'_>,
    place: usize,
    used: Use,
) -> Result<TableColumns, AllocError> {
    match terms.schema().entity_at(place) {
        Some(entity) if used.has_table() => columns_of(alloc, terms, entity),
        _ => Ok(TableColumns {
            names: Vec::new(alloc),
        }),
    }
}

/// The columns of an entity: each is called as its attribute; as `entity.attribute`, by the entity that declares it, where the name is that
/// of a column before it, `id`, or `entity`. That takes the square of how many they are. Memory alone can fail.
///
/// Tested.
pub fn columns_of(
    alloc: Global,
    terms: &Terms<'_>,
    entity: EntityId,
) -> Result<TableColumns, AllocError>
    requires { IsEntityOf terms.now entity }
{
    let mut names = Vec::new(alloc);
    for position in 0..terms.schema().row_count(entity) {
        let attribute = terms.schema().row(entity, position);
        names.push(column(alloc, terms, attribute, names.as_slice())?)?;
    }
    Ok(TableColumns { names })
}

/// How the column of an attribute is called after some others.
fn column(
    alloc: Global,
    terms: &Terms<'_>,
    attribute: AttrId,
    before: &[String],
) -> Result<String, AllocError>
    requires { IsAttributeOf terms.now attribute }
{
    let name = terms.attribute(attribute);
    if !is_taken(name, before) {
        return String::from_str(alloc, name);
    }
    let mut text = String::new(alloc);
    terms.write_full_name(&mut text, attribute)?;
    Ok(text)
}

/// Whether a name is that of one of some columns, `id`, or `entity`, but for the case of letters.
fn is_taken(name: &str, columns: &[String]) -> bool {
    name.eq_ignore_ascii_case("id")
        || name.eq_ignore_ascii_case("entity")
        || columns
            .iter()
            .any(|column| column.as_str().eq_ignore_ascii_case(name))
}
