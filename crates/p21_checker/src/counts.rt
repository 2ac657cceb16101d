//! What a check tells of a file without a fault.

use p21_counts::Tally;

/// What is counted of the instances of a file.
#[derive(Drop)]
pub struct Counts<'a> {
    /// How many there are.
    pub instances: u64,
    /// What is counted of them: complex ones, references and keywords.
    pub tally: Tally<'a>,
}
