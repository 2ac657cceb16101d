//! Names that are near a name.

use crate::explained::Subject;
use p21_express::EntityDecl;
use p21_printed::Said;
use std::alloc::{AllocError, Global};
use strsim::generic_levenshtein;

/// A name, and how many letters must be put in, left out or changed to come to it.
#[derive(Clone, Copy)]
struct Near<'a> {
    name: &'a [u8],
    distance: usize,
}

/// Adds a sentence of the nearest names of entities, two at most; of none that shares too little with the name.
pub(crate) fn say_nearest(
    said: &mut Said,
    subject: Subject<'_>,
    name: &[u8],
) -> Result<(), AllocError> {
    match nearest(said.alloc, &subject.schema.declared().entities, name)? {
        (Some(first), Some(second)) => {
            said.say((" The nearest names are ", subject.name(first.name)))?;
            said.say((" and ", subject.name(second.name), "."))
        }
        (Some(first), None) => said.say((" The nearest name is ", subject.name(first.name), ".")),
        _ => Ok(()),
    }
}

/// The nearest entity and the one after it, where they are near enough; of several that are as near the first of the text.
fn nearest<'a>(
    alloc: Global,
    entities: &'a [EntityDecl],
    name: &[u8],
) -> Result<(Option<Near<'a>>, Option<Near<'a>>), AllocError> {
    let most = name.len() / 3;
    let mut first: Option<Near<'a>> = None;
    let mut second: Option<Near<'a>> = None;
    for entity in entities {
        let distance = generic_levenshtein(alloc, name, entity.name.as_slice())?;
        if distance > most {
            continue;
        }
        let near = Near {
            name: &entity.name,
            distance,
        };
        if is_nearer(&near, &first) {
            second = first;
            first = Some(near);
        } else if is_nearer(&near, &second) {
            second = Some(near);
        }
    }
    Ok((first, second))
}

/// Whether a name is nearer than another, or there is no other.
fn is_nearer(near: &Near<'_>, other: &Option<Near<'_>>) -> bool {
    other.is_none_or(|other| near.distance < other.distance)
}
