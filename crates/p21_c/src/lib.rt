//! The calls for programs in C, and in languages that call C. `include/p21.h` says what each takes and gives.
#![tactic(auto)]

mod bound;
mod codes;
mod entity_calls;
mod explaining;
mod handle;
mod header_call;
mod held;
mod mend_calls;
mod model_calls;
mod models;
mod owner;
mod reading;
mod refused;
mod rule_calls;
mod rule_words;
mod schema_calls;
mod type_calls;
mod type_text;
mod value_calls;
mod values;
