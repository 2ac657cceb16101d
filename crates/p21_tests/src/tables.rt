//! The table of a schema's text.

use p21_express::read_declarations;
use p21_schema::{Rules, Schema};
use std::alloc::Global;

/// The table of a schema's text.
pub(crate) fn table(alloc: Global, text: &[u8]) -> Option<Schema> {
    let declarations = read_declarations(alloc, text).ok()?;
    Schema::build(alloc, declarations, Rules::default()).ok()
}
