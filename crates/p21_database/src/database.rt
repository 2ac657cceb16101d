//! The rows of a model in a database.

ghost use Rattle.p21_schema.specs.Place.{IsEntityOf};

use crate::failure::io_error;
use crate::statements::{create_table, insert, own_name, table_name};
use crate::views::create_view;
use p21_json::Terms;
use p21_rows::{Cell, InputError, Layout, Rows, Table};
use p21_schema::EntityId;
use sqlite::types::ValueRef;
use sqlite::{Alter, Connection, Error, ErrorCode};
use std::alloc::{AllocError, Global};
use std::{io, slice};

/// How many rows of a table wait before they are written. The writer keeps few of its plans, so those of one table are written together.
const BATCH: usize = 256;

/// How many values a statement writes at most, but for one of a single row.
const VALUES: usize = 512;

/// How many rows a statement writes at most.
const ROWS: usize = 32;

/// How many attributes an entity with a table or a view may have: SQLite takes 2000 columns, of which a view has two for the number and the entity.
const ATTRIBUTES: usize = 1998;

/// How many tables are of no entity.
const OWN: usize = 3;

/// A database that takes the rows of a model, in one transaction.
#[derive(Drop)]
pub struct Database<S: Alter + Drop> {
    alloc: Global,
    conn: Connection<S>,
    /// What waits for each table: those of no entity, and then those of the entities in the order of the schema.
    waiting: Vec<Waiting>,
    /// Whether each entity has a view, also one without instances.
    all_entities: bool,
    /// Why a call failed.
    error: Option<Error>,
    /// Whether a call failed since an entity has too many attributes.
    is_too_wide: bool,
}

/// Rows that are not written yet, and the statements that write one and several.
#[derive(Drop)]
struct Waiting {
    insert: String,
    insert_several: String,
    /// How many those are.
    several: usize,
    rows: Vec<Vec<Cell>>,
}

impl<S: Alter + Drop> Database<S> {
    /// A database that has taken no row. With `all_entities` it will have a view for each entity of the schema, and otherwise for each that has
    /// instances, its subtypes' among them.
    ///
    /// A database tells neither its calls nor whether it failed, so over it the clause of `export_rows` says of a complete
    /// run only that the file has a reading without a fault. That the statements are right SQL and that the database holds the rows of the model is tested
    /// (`tests/run_sqlite`).
    ///
    /// Cost: At most 255 rows of each table wait. For each view the names of its columns, while it is made, and the
    /// square of the rows of its supertype and of each table below it. The writer keeps 16 MB of pages.
    pub fn new(alloc: Global, conn: Connection<S>, all_entities: bool) -> Database<S> {
        Database {
            alloc,
            conn,
            waiting: Vec::new(alloc),
            all_entities,
            error: None,
            is_too_wide: false,
        }
    }

    /// The connection.
    pub fn into_connection(self) -> Connection<S> {
        let Database {
            alloc: _,
            conn,
            waiting: _,
            all_entities: _,
            error: _,
            is_too_wide: _,
        } = self;
        conn
    }

    /// Whether a call failed since an entity with a table or a view has more than 1998 attributes.
    pub fn is_too_wide(&self) -> bool {
        self.is_too_wide
    }

    /// Why the last call failed that did; none where an entity has too many attributes.
    ///
    /// Tested.
    pub fn error(&self) -> Option<io::Error> {
        match self.error {
            Some(error) => Some(io_error(error)),
            None => None,
        }
    }

    /// Notes why a call failed.
    fn note(&mut self, error: Error) -> InputError {
        self.error = Some(error);
        if error == Error::SqliteFailure(ErrorCode::OutOfMemory) {
            InputError::Memory
        } else {
            InputError::Device
        }
    }

    /// Runs a statement that makes a table, an index or a view, or begins or ends the transaction.
    fn run(&mut self, sql: &str) -> Result<(), InputError> {
        match self.conn.execute(sql, &[]) {
            Ok(_) => Ok(()),
            Err(error) => Err(self.note(error)),
        }
    }

    /// Makes a table that is of no entity, with these columns, of which there are so many.
    fn add_own(
        &mut self,
        terms: &Terms<'_>,
        name: &str,
        columns: &str,
        count: usize,
    ) -> Result<(), InputError> {
        let name = own_name(self.alloc, terms, name)?;
        let sql = format!(in self.alloc; "CREATE TABLE \"{name}\" ({columns})")?;
        self.run(sql.as_str())?;
        self.wait_for(name.as_str(), count)?;
        Ok(())
    }

    /// Makes the tables that are of no entity, and the index of the references.
    fn add_owns(&mut self, terms: &Terms<'_>) -> Result<(), InputError> {
        self.add_own(terms, "metadata", "\"key\" TEXT, \"value\"", 2)?;
        self.add_own(
            terms,
            "id_map",
            "\"id\" INTEGER PRIMARY KEY, \"entity\" TEXT, \"at\" INTEGER",
            3,
        )?;
        self.add_own(
            terms,
            "reference",
            "\"source\" INTEGER, \"attribute\" TEXT, \"position\" INTEGER, \"target\" INTEGER",
            4,
        )?;
        let name = own_name(self.alloc, terms, "reference")?;
        let sql = format!(in self.alloc;
            "CREATE INDEX \"reference.target\" ON \"{name}\" (\"target\")"
        )?;
        self.run(sql.as_str())
    }

    /// Makes the tables of the entities.
    fn add_tables(&mut self, terms: &Terms<'_>, layout: &Layout<'_, '_>) -> Result<(), InputError> {
        let schema = terms.schema();
        for place in 0..schema.declared().entities.len() {
            match schema.entity_at(place) {
                Some(entity) if layout.has_table(entity) => self.add_table(terms, layout, entity)?,
                _ => self.wait_for("", 0)?,
            }
        }
        Ok(())
    }

    /// Makes the table of an entity.
    fn add_table(
        &mut self,
        terms: &Terms<'_>,
        layout: &Layout<'_, '_>,
        entity: EntityId,
    ) -> Result<(), InputError>
        requires { IsEntityOf terms.now entity }
    {
        let attributes = layout.columns(entity).len();
        if attributes > ATTRIBUTES {
            self.is_too_wide = true;
            return Err(InputError::Device);
        }
        let name = table_name(self.alloc, terms, entity)?;
        let sql = create_table(self.alloc, terms, layout, entity, name.as_str())?;
        self.run(sql.as_str())?;
        let count = attributes.saturating_add(1);
        self.wait_for(name.as_str(), count)?;
        Ok(())
    }

    /// Makes the views of the entities.
    fn add_views(&mut self, terms: &Terms<'_>, layout: &Layout<'_, '_>) -> Result<(), InputError> {
        let schema = terms.schema();
        for place in 0..schema.declared().entities.len() {
            if let Some(entity) = schema.entity_at(place) {
                self.add_view(terms, layout, entity)?;
            }
        }
        Ok(())
    }

    /// Makes the view of an entity, if it is to have one.
    fn add_view(
        &mut self,
        terms: &Terms<'_>,
        layout: &Layout<'_, '_>,
        entity: EntityId,
    ) -> Result<(), InputError>
        requires { IsEntityOf terms.now entity }
    {
        let Some(sql) = create_view(self.alloc, terms, layout, entity, self.all_entities)? else {
            return Ok(());
        };
        if terms.schema().row_count(entity) > ATTRIBUTES {
            self.is_too_wide = true;
            return Err(InputError::Device);
        }
        self.run(sql.as_str())
    }

    /// Rows of the next table, of so many values, will be written to a table of this name.
    fn wait_for(&mut self, name: &str, count: usize) -> Result<(), AllocError> {
        let several = (VALUES / count.max(1)).clamp(1, ROWS);
        let waiting = Waiting {
            insert: insert(self.alloc, name, 1, count)?,
            insert_several: insert(self.alloc, name, several, count)?,
            several,
            rows: Vec::new(self.alloc),
        };
        self.waiting.push(waiting)?;
        Ok(())
    }

    /// Writes the rows that wait at a place.
    fn write_at(&mut self, place: usize) -> Result<(), InputError> {
        let Some(waiting) = self.waiting.get_mut(place) else {
            return Ok(());
        };
        match write_rows(self.alloc, &mut self.conn, waiting) {
            Ok(()) => {
                waiting.rows.clear();
                Ok(())
            }
            Err(error) => Err(self.note(error)),
        }
    }
}

impl<S: Alter + Drop> Rows for Database<S> {
    fn begin(&mut self, layout: &Layout<'_, '_>) -> Result<(), InputError> {
        self.run("BEGIN")?;
        let terms = layout.terms();
        self.add_owns(terms)?;
        self.add_tables(terms, layout)?;
        self.add_views(terms, layout)
    }

    fn insert(&mut self, table: Table, cells: Vec<Cell>) -> Result<(), InputError> {
        let place = place_of(table);
        let Some(waiting) = self.waiting.get_mut(place) else {
            return Err(InputError::Device);
        };
        if waiting.rows.push(cells).is_err() {
            return Err(InputError::Memory);
        }
        if waiting.rows.len() < BATCH {
            return Ok(());
        }
        self.write_at(place)
    }

    fn end(&mut self) -> Result<(), InputError> {
        for place in 0..self.waiting.len() {
            self.write_at(place)?;
        }
        self.run("COMMIT")
    }
}

/// Where the rows of a table wait.
fn place_of(table: Table) -> usize {
    match table {
        Table::Metadata => 0,
        Table::Instances => 1,
        Table::References => 2,
        Table::Entity(entity) => entity.place().saturating_add(OWN),
    }
}

/// Writes rows in order, several at a time.
fn write_rows<S: Alter + Drop>(
    alloc: Global,
    conn: &mut Connection<S>,
    waiting: &Waiting,
) -> Result<(), Error> {
    let several = waiting.several.max(1);
    for rows in waiting.rows.as_slice().chunks(several) {
        if rows.len() == several {
            write_together(alloc, conn, waiting.insert_several.as_str(), rows)?;
        } else {
            write_each(alloc, conn, waiting.insert.as_str(), rows)?;
        }
    }
    Ok(())
}

/// Writes rows one by one.
fn write_each<S: Alter + Drop>(
    alloc: Global,
    conn: &mut Connection<S>,
    insert: &str,
    rows: &[Vec<Cell>],
) -> Result<(), Error> {
    for row in rows {
        write_together(alloc, conn, insert, slice::from_ref(row))?;
    }
    Ok(())
}

/// Writes the rows of one statement.
fn write_together<S: Alter + Drop>(
    alloc: Global,
    conn: &mut Connection<S>,
    insert: &str,
    rows: &[Vec<Cell>],
) -> Result<(), Error> {
    match values(alloc, rows) {
        Ok(values) => {
            conn.execute(insert, values.as_slice())?;
            Ok(())
        }
        Err(AllocError) => Err(Error::SqliteFailure(ErrorCode::OutOfMemory)),
    }
}

/// The values of rows, one row after the other.
fn values(alloc: Global, rows: &[Vec<Cell>]) -> Result<Vec<ValueRef<'_>>, AllocError> {
    let mut values = Vec::new(alloc);
    for row in rows {
        push_values(&mut values, row.as_slice())?;
    }
    Ok(values)
}

/// Adds the values of a row.
fn push_values<'c>(values: &mut Vec<ValueRef<'c>>, row: &'c [Cell]) -> Result<(), AllocError> {
    for cell in row {
        values.push(value_of(cell))?;
    }
    Ok(())
}

/// The value of a cell.
fn value_of(cell: &Cell) -> ValueRef<'_> {
    match cell {
        Cell::Null => ValueRef::Null,
        Cell::Integer(number) => ValueRef::Int(*number),
        Cell::Real(number) => ValueRef::Real(*number),
        Cell::Text(text) => ValueRef::Text(text.as_slice()),
    }
}
