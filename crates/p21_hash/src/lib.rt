//! Hashers for the two kinds of keys that files are full of: instance names and keywords.
//!
//! They are quick, and made of a `HashKey`. Whoever writes a file and knows its key can make names and keywords collide. Whoever does not
//! can make keywords, and names of different stretches of 2^26, collide by luck alone; how many names of one stretch may stand together
//! is bounded by any key. So where files come from strangers the key is to be a number that is drawn for each run.
#![tactic(auto)]

mod instance_names;
mod key;
mod keywords;

pub use instance_names::{InstanceNameHasher, InstanceNameHashing};
pub use key::HashKey;
pub use keywords::{KeywordHasher, KeywordHashing};
