//! What may be printed of a text: places, lines with a caret, and objects of JSON.
#![tactic(auto)]

mod excerpt;
mod finding;
mod json;
mod paint;
mod place;
mod said;
mod shown;

pub use excerpt::push_line;
pub use finding::{Finding, Format, explain_device, in_text, print_finding, print_line};
pub use paint::painted;
pub use place::{Lines, Place, place_of};
pub use said::{Front, Said, Say, Span, article};
pub use shown::new_text;
