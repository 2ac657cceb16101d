//! What an attribute is declared as, in an instance.

use crate::attributes::Attribute;
use crate::explained::Subject;
use crate::types::{article_of, say_meaning, say_type};
use p21_express::{AttrDecl, EntityDecl};
use p21_printed::Said;
use p21_schema::Schema;
use std::alloc::AllocError;

/// Adds what an attribute is: `an OPTIONAL IfcLabel, which is a STRING(255)`, and what entities of the instance, whose records have these
/// keywords, make of it.
pub(crate) fn say_declared(
    said: &mut Said,
    subject: Subject<'_>,
    attribute: Attribute<'_>,
    keywords: &[&[u8]],
) -> Result<(), AllocError> {
    say_form(said, subject, attribute.declared)?;
    for entity in &subject.schema.declared().entities {
        if is_of(subject.schema, keywords, &entity.name) {
            say_again(said, subject, attribute, entity)?;
        }
    }
    Ok(())
}

/// Adds the type of a declaration, with OPTIONAL where it has that.
fn say_form(said: &mut Said, subject: Subject<'_>, declared: &AttrDecl) -> Result<(), AllocError> {
    let before = if declared.optional {
        "an OPTIONAL "
    } else {
        article_of(&declared.texpr)
    };
    said.say(before)?;
    say_type(said, subject, &declared.texpr)?;
    say_meaning(said, subject, &declared.texpr)
}

/// Adds how an entity declares an attribute again, where it does.
fn say_again(
    said: &mut Said,
    subject: Subject<'_>,
    attribute: Attribute<'_>,
    entity: &EntityDecl,
) -> Result<(), AllocError> {
    let name = subject.name(&entity.name);
    for again in &entity.attributes {
        if again.name == attribute.declared.name
            && is_through(subject.schema, &again.of, attribute)
        {
            said.say(("; ", name, " redeclares it as "))?;
            say_form(said, subject, again)?;
        }
    }
    for derived in &entity.derived {
        if derived.name == attribute.declared.name
            && is_through(subject.schema, &derived.of, attribute)
        {
            said.say(("; ", name, " derives it, so it is written `*`"))?;
        }
    }
    Ok(())
}

/// Whether a redeclaration through this entity is one of an attribute of that name.
fn is_through(schema: &Schema, of: &Option<Vec<u8>>, attribute: Attribute<'_>) -> bool {
    of.as_ref()
        .is_some_and(|of| is_a(schema, of, &attribute.owner.name))
}

/// Whether one of some records makes an instance one of an entity: in a complex instance by its own keyword, else also by its ancestors.
fn is_of(schema: &Schema, keywords: &[&[u8]], name: &[u8]) -> bool {
    match keywords {
        [keyword] => is_a(schema, keyword, name),
        _ => keywords.contains(&name),
    }
}

/// Whether the entity of a name is that of the other, or has it as an ancestor.
fn is_a(schema: &Schema, name: &[u8], other: &[u8]) -> bool {
    match (schema.entity(name), schema.entity(other)) {
        (Some(entity), Some(other)) => schema.is_a(entity, other),
        _ => false,
    }
}
