//! Which rule a complex instance breaks.

use crate::explained::Subject;
use p21_express::EntityDecl;
use p21_printed::Said;
use std::alloc::AllocError;

/// Adds which rule the records of a complex instance break, by their keywords; answers the number of the record.
pub(crate) fn say_broken_rule(
    said: &mut Said,
    subject: Subject<'_>,
    keywords: &[&[u8]],
) -> Result<u64, AllocError> {
    for (rec, keyword) in keywords.iter().enumerate() {
        if keywords[..rec].contains(keyword) {
            said.say((subject.name(keyword), " occurs twice."))?;
            return Ok(rec as u64);
        }
    }
    for (rec, keyword) in keywords.iter().enumerate() {
        if let Some(lacking) = lacking_supertype(subject, keywords, keyword) {
            let (name, lacking) = (subject.name(keyword), subject.name(lacking));
            said.say((name, " occurs without its supertype ", lacking, "."))?;
            return Ok(rec as u64);
        }
    }
    for (rec, keyword) in keywords.iter().enumerate() {
        if lacks_subtype(subject, keywords, keyword) {
            said.say((
                subject.name(keyword),
                " is an ABSTRACT SUPERTYPE, and occurs without a subtype.",
            ))?;
            return Ok(rec as u64);
        }
    }
    said.say("its records do not make one instance.")?;
    Ok(0)
}

/// The first supertype of an entity that is none of the keywords.
fn lacking_supertype<'a>(
    subject: Subject<'a>,
    keywords: &[&[u8]],
    keyword: &[u8],
) -> Option<&'a [u8]> {
    for supertype in &subject.entity(keyword)?.supertypes {
        if !keywords.contains(&supertype.as_slice()) {
            return Some(supertype);
        }
    }
    None
}

/// Whether an entity is abstract, and none of the keywords is a subtype of it.
fn lacks_subtype(subject: Subject<'_>, keywords: &[&[u8]], keyword: &[u8]) -> bool {
    let is_abstract = subject.entity(keyword).is_some_and(|it| it.is_abstract);
    is_abstract && !has_subtype(subject, keywords, keyword)
}

/// Whether one of the keywords is a subtype of an entity.
fn has_subtype(subject: Subject<'_>, keywords: &[&[u8]], name: &[u8]) -> bool {
    for keyword in keywords {
        if subject
            .entity(keyword)
            .is_some_and(|it| is_subtype(it, name))
        {
            return true;
        }
    }
    false
}

/// Whether an entity names the other in SUBTYPE OF.
pub(crate) fn is_subtype(entity: &EntityDecl, name: &[u8]) -> bool {
    entity.supertypes.iter().any(|it| it.as_slice() == name)
}
