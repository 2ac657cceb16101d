//! The tokens of the clear text encoding of ISO 10303-21, and the items of its strings.
#![tactic(auto)]

mod binary;
mod body;
mod bytes;
mod front;
mod instance_name;
mod laws;
mod meaning;
mod next;
mod number;
mod separators;
mod shape;
mod str_items;
mod string;
mod token;
mod units;
mod word;

pub use binary::binary_bits;
pub use body::{items, string_items, string_len};
pub use laws::{
    first_has_content, first_is_unique, items_are_unique, one_first, one_list, one_string,
    tokens_are_unique,
};
pub use meaning::StrItem;
pub use next::next_token;
pub use separators::separators_len;
pub use str_items::StrItems;
pub use token::{Lexed, Token};
