//! The name of a schema as the items of a string write it.

ghost use Rattle.std.specs.Prelude.{◌≡◌, List, MatchBool};
ghost use Rattle.p21_text.specs.Items.{IsBody, Item, ItemsOf};
ghost use Rattle.p21_text.specs.Meanings.{item_of};
ghost use Rattle.p21_text.specs.StringItems.{items_left};
ghost use Rattle.p21_check.specs.Header.{NameSchema};
ghost use Rattle.p21_check.specs.SchemaName.{ends_name, stands_for, spelled};

use p21_text::{StrItem, StrItems, items};

/// Whether the string of this body writes the name of a schema.
pub(crate) fn is_schema_name(body: &[u8], name: &[u8]) -> bool
    requires { IsBody body.now }
    ensures { (items : List Item) × ItemsOf body.now items × MatchBool result (NameSchema items name.now) (¬ (NameSchema items name.now)) }
{
    let written = items(body);
    !name.is_empty() && spells(written, name)
}

/// Whether the items before the first space or `{` are the bytes of the name, their ASCII letters in upper case.
fn spells(mut items: StrItems<'_>, name: &[u8]) -> bool
    ensures { result ≡ spelled (items_left items.entry) name.now }
{
    for byte in name {
        if !items.next().is_some_and(|item| stands_for(item, *byte)) {
            return false;
        }
    }
    items.next().is_none_or(ends_name)
}

/// Whether the name ends before the item.
fn ends_name(item: StrItem) -> bool
    ensures { result ≡ ends_name (item_of item) }
{
    matches!(item, StrItem::Scalar(' ' | '{'))
}

/// Whether the item is a character of the name that the byte is in upper case.
fn stands_for(item: StrItem, byte: u8) -> bool
    ensures { result ≡ stands_for (item_of item) byte }
{
    match item {
        StrItem::Scalar(c) => c != ' ' && c != '{' && c.to_ascii_uppercase() == char::from(byte),
        StrItem::Page(..) => false,
    }
}
