//! What a taker of rows in memory was asked.

use p21_rows::{Cell, Table};

/// A call of a taker.
#[derive(Drop)]
pub enum Call {
    Begun,
    Given(Table, Vec<Cell>),
    Ended,
}
