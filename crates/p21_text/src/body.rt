//! The items of a string.

ghost use Rattle.std.specs.Prelude.{IfOk, map, length, ◌≡◌, ℕ, List};
ghost use Rattle.p21_text.specs.Items.{IsBody, Item, ItemsOf};
ghost use Rattle.p21_text.specs.Meanings.{item_of};
ghost use Rattle.p21_text.specs.StringItems.{items_left};

use crate::meaning::StrItem;
use crate::str_items::StrItems;
use std::alloc::{AllocError, Global};

/// The items of a string, whose body `raw` is: what stands between the apostrophes of a string token.
pub fn items(raw: &[u8]) -> StrItems<'_>
    requires { IsBody raw.now }
    // The items that the iterator gives are all items of the string, in order.
    ensures { ItemsOf raw.entry.now (items_left result) }
{
    StrItems::new(raw)
}

/// The same as a vector. Memory alone can fail.
pub fn string_items(alloc: Global, raw: &[u8]) -> Result<Vec<StrItem>, AllocError>
    requires { IsBody raw.now }
    ensures { IfOk result (λ v. ItemsOf raw.now (map item_of v.items)) }
{
    items(raw).collect(alloc)
}

/// The number of items of a string, whose body `raw` is.
pub fn string_len(raw: &[u8]) -> u64
    requires { IsBody raw.now }
    ensures { (found : List Item) × ItemsOf raw.now found × (result ≡ length found) }
{
    items(raw).count() as u64
}
