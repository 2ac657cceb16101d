//! Declarations of an EXPRESS schema, read from its text.
#![tactic(auto)]

mod attributes;
mod checks;
mod copy;
mod declarations;
mod entities;
mod error;
mod keywords;
mod layer;
mod misfit;
mod names;
mod parts;
mod places;
mod reading;
mod refusal;
mod schema;
mod type_decls;
mod types;
mod whole;
mod word;
mod words;

pub use attributes::begins_rules;
pub use declarations::{
    AttrDecl, Bounds, Declarations, DeriveDecl, EntityDecl, TypeDecl, TypeExpr, Under, Width,
};
pub use error::SchemaError;
pub use keywords::{DeclWord, decl_word};
pub use names::{AttrName, naming, next_naming};
pub use parts::{
    begins_name, begins_symbol, behind, behind_stop, if_name, name, symbol, up_to, word as keyword,
};
pub use reading::{
    one_form, one_reading, one_word_list, place_at, read_declarations, refused_as, upper_case,
};
pub use refusal::{Kind, Refusal};
pub use whole::Whole;
pub use word::Word;
pub use words::{Scanned, scan};
