//! Faults of an instance.

ghost use Rattle.p21_schema.specs.Place.{IsEntityOf};

use crate::attributes::{Attribute, attribute_in, attribute_of, count};
use crate::complex::{is_subtype, say_broken_rule};
use crate::explained::Subject;
use crate::instance::{Instance, Spot};
use crate::names::say_nearest;
use crate::parts::{part_in, say_part};
use crate::redeclared::say_declared;
use crate::references::{say_kind, say_named};
use crate::types::{Base, base_of, base_under, is_of_reals, type_named};
use crate::values::say_value;
use p21_express::TypeExpr;
use p21_printed::{Front, Said, article};
use p21_schema::{EntityId, Schema};
use p21_text::Token;
use p21_tree::FaultKind;
use std::alloc::AllocError;

/// The most subtypes that are named of an abstract entity.
const MOST_SUBTYPES: usize = 5;

/// Adds what is wrong with an instance; answers the place to look at, in bytes from the instance's first byte.
pub(crate) fn say_instance_fault(
    said: &mut Said,
    instance: &Instance<'_>,
    kind: FaultKind,
) -> Result<usize, AllocError> {
    match kind {
        FaultKind::DuplicateName => say_duplicate(said, instance),
        FaultKind::UnknownEntity => say_unknown(said, instance),
        FaultKind::AbstractEntity => say_abstract(said, instance),
        FaultKind::BadComplex => say_complex(said, instance),
        FaultKind::WrongCount { rec } => say_count(said, instance, rec),
        FaultKind::BadAttribute { rec, attr } => {
            let found = say_attribute(said, instance, rec, attr)?;
            say_bad_value(said, instance, found, rec, attr)
        }
        FaultKind::RepeatedReference { rec, attr } => {
            say_attribute(said, instance, rec, attr)?;
            say_repeated(said, instance, rec, attr)
        }
        FaultKind::MissingReference { rec, attr, name } => {
            say_attribute(said, instance, rec, attr)?;
            say_reference(said, name)?;
            said.say(", but no instance has that name.")?;
            Ok(instance.place_in(rec, attr, Token::Name(name)))
        }
        FaultKind::WrongReference { rec, attr, name } => {
            say_attribute(said, instance, rec, attr)?;
            let from = say_reference(said, name)?;
            said.say(", ")?;
            say_named(said, instance.subject, name)?;
            said.found = said.since(from);
            said.say(", which is not an instance of that type.")?;
            Ok(instance.place_in(rec, attr, Token::Name(name)))
        }
        _ => {
            said.say("This instance has a fault.")?;
            Ok(0)
        }
    }
}

/// Adds which instance name is there; answers how long what is said was before the name.
fn say_reference(said: &mut Said, name: u64) -> Result<usize, AllocError> {
    said.say(". Found ")?;
    let from = said.len();
    said.say(("#", name))?;
    said.found = said.since(from);
    Ok(from)
}

/// Adds which instance a list names twice.
fn say_repeated(
    said: &mut Said,
    instance: &Instance<'_>,
    rec: u64,
    attr: u64,
) -> Result<usize, AllocError> {
    said.say(". A SET or LIST OF UNIQUE in it names ")?;
    match instance.repeated_in(said.alloc, rec, attr)? {
        Some((name, at)) => {
            said.say(("#", name, " twice."))?;
            Ok(at)
        }
        None => {
            said.say("an instance twice.")?;
            Ok(instance.place_of(Spot::Parameter { rec, attr }))
        }
    }
}

/// Adds what is there in an attribute's place, and what was perhaps meant.
fn say_bad_value<'a>(
    said: &mut Said,
    instance: &Instance<'a>,
    attribute: Option<Attribute<'a>>,
    rec: u64,
    attr: u64,
) -> Result<usize, AllocError> {
    if let Some(attribute) = attribute {
        let texpr = &attribute.declared.texpr;
        if let Some(part) = part_in(said.alloc, instance, rec, attr, texpr)? {
            say_part(said, instance, &part)?;
            return Ok(part.at);
        }
    }
    let spot = Spot::Parameter { rec, attr };
    let at = instance.place_of(spot).min(instance.bytes.len());
    said.say(". Found ")?;
    let from = said.len();
    say_value(said, instance.bytes, at)?;
    said.found = said.since(from);
    said.say(".")?;
    if let (Some(placed), Some(attribute)) = (instance.token_at(spot), attribute) {
        let integer = instance.integer_in(rec, attr);
        say_advice(said, instance.subject, attribute, placed.token, integer)?;
    }
    Ok(at)
}

/// Adds how a value of the attribute is written, where the first token of the parameter, or the first integer in it, shows what was
/// perhaps meant.
fn say_advice(
    said: &mut Said,
    subject: Subject<'_>,
    attribute: Attribute<'_>,
    token: Token<'_>,
    integer: Option<&[u8]>,
) -> Result<(), AllocError> {
    let texpr = &attribute.declared.texpr;
    let base = base_of(subject.schema, texpr);
    let words = advice(base, token);
    if !words.is_empty() {
        return said.say(words);
    }
    match (base, token, integer) {
        (Base::Real | Base::Aggregate, Token::Int(_) | Token::LParen, Some(digits))
            if is_of_reals(subject.schema.declared(), texpr) => {
            said.say((" A REAL has a point, as in `", Front(digits), ".`."))
        }
        (Base::Text, Token::Int(digits) | Token::Real(digits), _) => {
            said.say((" A STRING is in apostrophes, as in '", Front(digits), "'."))
        }
        (Base::Aggregate, Token::Name(name), _) => said.say((
            " A list is in parentheses, even with one element, as in (#",
            name,
            ").",
        )),
        (Base::Select, Token::LParen | Token::Name(_), _) => Ok(()),
        (Base::Select, Token::Keyword(_) | Token::UserKeyword(_), _) => Ok(()),
        (Base::Select, _, _) => say_typed(said, subject.schema, texpr),
        _ => Ok(()),
    }
}

/// The advice that depends on the type and the token alone; nothing where there is none.
fn advice(base: Base, token: Token<'_>) -> &'static str {
    match token {
        Token::Dollar => " `$` is allowed only for an OPTIONAL attribute.",
        Token::Star => " `*` is allowed only for a derived attribute.",
        Token::Enumeration(b"TRUE" | b"FALSE" | b"UNKNOWN") => {
            " A BOOLEAN is written `.T.` or `.F.`, and an unknown LOGICAL `.U.`."
        }
        Token::Real(_) if base == Base::Integer => " An INTEGER has no point.",
        Token::Str([]) if base != Base::Text => {
            " A value that is not given is written `$`, where the attribute is OPTIONAL."
        }
        Token::Str(_) if base == Base::Items => {
            " An enumeration value is between points, as in `.METRE.`."
        }
        _ => "",
    }
}

/// Adds that a value of a SELECT is written with its type, and how, where a type of strings is one.
fn say_typed(said: &mut Said, schema: &Schema, texpr: &TypeExpr) -> Result<(), AllocError> {
    said.say(" A value of a SELECT is written with its type")?;
    match text_in(schema, texpr) {
        Some(name) => said.say((", as in ", name, "('x').")),
        None => said.say("."),
    }
}

/// The first type of strings that a SELECT reaches.
fn text_in<'a>(schema: &'a Schema, texpr: &TypeExpr) -> Option<&'a [u8]> {
    let TypeExpr::Named(name) = texpr else {
        return None;
    };
    let select = schema.type_named(name)?;
    for defined in &schema.declared().types {
        if let Some(reached) = schema.select_has(select, &defined.name) {
            if base_under(schema.under(reached)) == Base::Text {
                return Some(&defined.name);
            }
        }
    }
    None
}

/// Adds the name of an instance.
fn say_subject(said: &mut Said, instance: &Instance<'_>) -> Result<(), AllocError> {
    said.name = instance.name();
    match said.name {
        Some(name) => said.say(("#", name)),
        None => said.say("The instance"),
    }
}

/// Adds which earlier instance has the same name.
fn say_duplicate(said: &mut Said, instance: &Instance<'_>) -> Result<usize, AllocError> {
    say_subject(said, instance)?;
    said.say(" is already the name of ")?;
    if let Some(name) = instance.name() {
        say_named(said, instance.subject, name)?;
    }
    said.say(".")?;
    Ok(0)
}

/// Adds which keyword is no entity, and the names near it.
fn say_unknown(said: &mut Said, instance: &Instance<'_>) -> Result<usize, AllocError> {
    for (rec, keyword) in instance.keywords().iter().enumerate() {
        if instance.subject.schema.entity(keyword).is_none() {
            let rec = rec as u64;
            say_record(said, instance, rec)?;
            say_no_entity(said, instance.subject, keyword)?;
            return Ok(instance.place_of(Spot::Keyword { rec }));
        }
    }
    Ok(0)
}

/// Adds that a keyword, which was named, is no entity.
fn say_no_entity(said: &mut Said, subject: Subject<'_>, keyword: &[u8]) -> Result<(), AllocError> {
    let declared = subject.schema.declared();
    said.say((
        ", but the schema ",
        declared.name.as_slice(),
        " has no such entity.",
    ))?;
    if keyword.starts_with(b"!") {
        return said.say(" A keyword with `!` is user-defined, and in no schema.");
    }
    if type_named(declared, keyword).is_some() {
        return said.say(" It has a TYPE of that name, which has no instances.");
    }
    say_nearest(said, subject, keyword)
}

/// Adds that an entity is abstract, and subtypes of it.
fn say_abstract(said: &mut Said, instance: &Instance<'_>) -> Result<usize, AllocError> {
    say_record(said, instance, 0)?;
    said.say(", which is an ABSTRACT SUPERTYPE; expected ")?;
    let from = said.len();
    said.say("an instance of a subtype")?;
    if let Some(name) = instance.keyword(0) {
        say_subtypes(said, instance.subject, name)?;
    }
    said.wanted = said.since(from);
    said.say(".")?;
    Ok(instance.place_of(Spot::Keyword { rec: 0 }))
}

/// Adds the first subtypes of an entity.
fn say_subtypes(said: &mut Said, subject: Subject<'_>, name: &[u8]) -> Result<(), AllocError> {
    let mut count: usize = 0;
    for entity in &subject.schema.declared().entities {
        if count < MOST_SUBTYPES && is_subtype(entity, name) {
            let before = if count == 0 { ", such as " } else { ", " };
            said.say((before, subject.name(&entity.name)))?;
            count += 1;
        }
    }
    Ok(())
}

/// Adds which rule a complex instance breaks.
fn say_complex(said: &mut Said, instance: &Instance<'_>) -> Result<usize, AllocError> {
    say_subject(said, instance)?;
    said.say(" is ")?;
    let from = said.len();
    say_kind(said, instance)?;
    said.found = said.since(from);
    said.say(": ")?;
    let rec = say_broken_rule(said, instance.subject, instance.keywords())?;
    Ok(instance.place_of(Spot::Keyword { rec }))
}

/// Adds how many attributes a record has by the schema, and how many values it is given.
fn say_count(said: &mut Said, instance: &Instance<'_>, rec: u64) -> Result<usize, AllocError> {
    say_record(said, instance, rec)?;
    let mut wanted: u64 = 0;
    if let Some(entity) = instance
        .keyword(rec)
        .and_then(|it| instance.subject.schema.entity(it))
    {
        said.say(", which has ")?;
        wanted = say_attributes(said, instance.subject, instance.is_complex(), entity)?;
    }
    let found = instance.parameter_count(rec);
    said.say(". Found ")?;
    let from = said.len();
    say_number(said, found, " value")?;
    said.found = said.since(from);
    said.say(".")?;
    say_comma(said, instance, rec, wanted)?;
    if found < wanted {
        Ok(instance.place_of(Spot::Close { rec }))
    } else {
        Ok(instance.place_of(Spot::Parameter { rec, attr: wanted }))
    }
}

/// Adds that a REAL has a point, where two integers stand for the first one of a record.
fn say_comma(
    said: &mut Said,
    instance: &Instance<'_>,
    rec: u64,
    wanted: u64,
) -> Result<(), AllocError> {
    for attr in 0..wanted {
        let next = attr.saturating_add(1);
        let found = attribute_in(instance, rec, attr);
        let is_real = found.is_some_and(|it| {
            base_of(instance.subject.schema, &it.declared.texpr) == Base::Real
        });
        if let (true, Some(whole), Some(decimals)) = (
            is_real,
            instance.integer_at(rec, attr),
            instance.integer_at(rec, next),
        ) {
            said.say((" A REAL has a point, as in `", Front(whole), "."))?;
            return said.say((Front(decimals), "`; a comma separates parameters."));
        }
    }
    Ok(())
}

/// Adds how many things there are.
fn say_number(said: &mut Said, number: u64, thing: &'static str) -> Result<(), AllocError> {
    said.say((number, thing, if number == 1 { "" } else { "s" }))
}

/// Adds how many attributes a record of an entity has, and their names in order; answers how many.
fn say_attributes(
    said: &mut Said,
    subject: Subject<'_>,
    complex: bool,
    entity: EntityId,
) -> Result<u64, AllocError>
    requires { IsEntityOf subject.schema.now entity }
{
    let from = said.len();
    let count = count(subject.schema, complex, entity);
    say_number(said, count as u64, " attribute")?;
    for position in 0..count {
        let before = if position == 0 { ": " } else { ", " };
        if let Some(found) = attribute_of(subject.schema, complex, entity, position) {
            said.say((before, subject.attribute_name(found)))?;
        }
    }
    said.wanted = said.since(from);
    Ok(count as u64)
}

/// Adds what an instance is, as far as one of its records says: `#4711 is an IfcWall`.
pub(crate) fn say_record(
    said: &mut Said,
    instance: &Instance<'_>,
    rec: u64,
) -> Result<(), AllocError> {
    say_subject(said, instance)?;
    let Some(keyword) = instance.keyword(rec) else {
        return Ok(());
    };
    if instance.is_complex() {
        said.say(" is a complex instance with the record ")?;
    } else {
        said.say((" is ", article(keyword)))?;
    }
    let from = said.len();
    said.say(Front(instance.subject.name(keyword)))?;
    said.entity = said.since(from);
    Ok(())
}

/// Adds what an attribute of an instance is declared as; answers the attribute.
fn say_attribute<'a>(
    said: &mut Said,
    instance: &Instance<'a>,
    rec: u64,
    attr: u64,
) -> Result<Option<Attribute<'a>>, AllocError> {
    say_record(said, instance, rec)?;
    said.say("; its attribute ")?;
    let Some(found) = attribute_in(instance, rec, attr) else {
        said.say(attr)?;
        return Ok(None);
    };
    let from = said.len();
    said.say(instance.subject.attribute_name(found))?;
    said.attribute = said.since(from);
    said.say((" (attr ", attr, "), declared in "))?;
    said.say((instance.subject.name(&found.owner.name), ", is "))?;
    let from = said.len();
    say_declared(said, instance.subject, found, instance.keywords())?;
    said.wanted = said.since(from);
    Ok(Some(found))
}
