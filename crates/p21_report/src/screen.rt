//! What standard error is.

use std::env::{self, VarError};

/// What standard error is.
#[derive(Clone, Copy, Debug)]
pub struct Screen {
    /// Whether it is a terminal.
    pub is_terminal: bool,
    /// Whether it is one that shows colours, and the environment wants them.
    pub is_colored: bool,
}

impl Screen {
    /// A terminal or none. Colours are not wanted where the environment has `NO_COLOR`, unless that is empty, or `TERM` is `dumb`.
    ///
    /// Whether colours are wanted is tested.
    pub fn new(rt: &HostRuntime, is_terminal: bool) -> Screen {
        Screen {
            is_terminal,
            is_colored: is_terminal && !has_no_color(rt) && !is_dumb(rt),
        }
    }

    /// What is no terminal.
    pub(crate) fn none() -> Screen {
        Screen {
            is_terminal: false,
            is_colored: false,
        }
    }
}

/// Whether `NO_COLOR` stands in the environment, and is not empty.
fn has_no_color(rt: &HostRuntime) -> bool {
    match env::var(rt, "NO_COLOR") {
        Ok(value) => !value.is_empty(),
        Err(error) => !matches!(error, VarError::NotPresent),
    }
}

/// Whether `TERM` is that of a terminal without colours.
fn is_dumb(rt: &HostRuntime) -> bool {
    match env::var(rt, "TERM") {
        Ok(value) => value.as_str() == "dumb",
        Err(_) => false,
    }
}
