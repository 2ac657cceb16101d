//! Rules under which a schema is checked.

/// Rules that a caller sets beside the declarations of a schema.
#[derive(Clone, Copy, Debug, Default, PartialEq, Eq)]
pub struct Rules {
    /// Whether a SET or a LIST OF UNIQUE may name no instance twice.
    pub distinct: bool,
}
