//! What an instance name refers to.

use crate::explained::{Subject, instance_at};
use crate::instance::Instance;
use p21_printed::{Said, article};
use std::alloc::AllocError;

/// Adds what the first instance of a name is and where it stands: `an IfcWall at line 12`.
pub(crate) fn say_named(
    said: &mut Said,
    subject: Subject<'_>,
    name: u64,
) -> Result<(), AllocError> {
    let Some(found) = subject.named.get(name) else {
        return said.say("no instance");
    };
    if let Some(instance) = instance_at(said.alloc, subject, found.at)? {
        say_kind(said, &instance)?;
    }
    said.say((" at line ", found.line as u64))
}

/// Adds what an instance is: its entity, or of a complex one those of its records.
pub(crate) fn say_kind(said: &mut Said, instance: &Instance<'_>) -> Result<(), AllocError> {
    if instance.is_complex() {
        said.say("a complex instance of ")?;
    } else if let Some(keyword) = instance.keywords().first() {
        said.say(article(keyword))?;
    }
    for (position, keyword) in instance.keywords().iter().enumerate() {
        let before = if position == 0 { "" } else { ", " };
        said.say((before, instance.subject.name(keyword)))?;
    }
    Ok(())
}
