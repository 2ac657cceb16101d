//! Tokens, trees, schemas, checks and joining by example, in one thread and where a row of tests/rows does not show them. The tests
//! stand here, and not beside what they try, so that neither is proved twice.
#![tactic(auto)]

#[cfg(test)]
mod express_tests;
#[cfg(test)]
mod header_tests;
#[cfg(test)]
mod join_tests;
#[cfg(test)]
mod many_records_tests;
#[cfg(test)]
mod reference_tests;
#[cfg(test)]
mod schema_tests;
#[cfg(test)]
mod tables;
#[cfg(test)]
mod text_tests;
#[cfg(test)]
mod tree_tests;
#[cfg(test)]
mod walk_tests;
