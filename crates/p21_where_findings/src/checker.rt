//! Who checks the rules of WHERE.

ghost use Rattle.std.specs.Thread.{IsSync};

use crate::findings::WhereFindings;
use p21_join::Model;
use p21_schema::Schema;
use std::alloc::{AllocError, Global};
use std::thread::Threads;

/// Who checks the rules of WHERE of a schema's text. What reports the findings is proved without it: no line of another fault hangs on what it finds.
pub trait WhereChecker {
    /// What the rules of a schema's text find in a model, which is of a file. Each evaluation may take so many steps. Memory alone can fail.
    fn find<R: Threads + Sync>(
        &self,
        rt: &R,
        alloc: Global,
        schema: &Schema,
        text: &[u8],
        steps: u64,
        file: &[u8],
        model: &Model<'_>,
    ) -> Result<WhereFindings, AllocError>
        // Several threads may use the runtime at once, as the bound says; of a method of a trait the toolchain wants it in words too.
        requires { IsSync R.row };
}
