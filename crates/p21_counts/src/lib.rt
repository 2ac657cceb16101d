//! What is counted of instances, and the lines that tell it in a report.
#![tactic(auto)]

mod count_text;
mod references;
mod tally;

pub use count_text::{counts, counts_with_key, tally_text};
pub use references::references_in;
pub use tally::{Keywords, Tally, add_keywords, count_keyword_at, count_records, no_keywords};
