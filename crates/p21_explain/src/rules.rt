//! Instances that break a rule, and rules that were not checked.

ghost use Rattle.std.specs.Prelude.{IfOk};
ghost use Rattle.std.specs.String.{string_bytes};
ghost use Rattle.p21_printed.specs.Printed.{IsPrinted};

use crate::explained::{Subject, instance_at, printed};
use crate::faults::say_record;
use crate::instance::{Instance, Spot};
use crate::references::say_named;
use crate::rule::{BrokenInverse, BrokenUnique, Reason, RuleForm, UncheckedRule};
use p21_printed::{Finding, Format, Front, Lines, Said, in_text, print_line};
use p21_schema::AttrId;
use p21_spelling::{Spellings, next_word};
use std::alloc::{AllocError, Global};

/// An instance that breaks a rule UNIQUE, explained as `explain_fault` explains a fault.
pub fn explain_not_unique(
    alloc: Global,
    subject: Subject<'_>,
    lines: &mut Lines<'_>,
    broken: &BrokenUnique<'_>,
    format: Format,
) -> Result<String, AllocError>
    // As for `explain_fault`.
    ensures { IfOk result (λ text. IsPrinted (string_bytes text)) }
{
    let mut said = Said::new(alloc);
    let at = match instance_at(alloc, subject, broken.at)? {
        Some(instance) => say_not_unique(&mut said, &instance, broken)?,
        None => in_text(subject.file, broken.at),
    };
    printed(
        alloc,
        subject,
        lines,
        broken.at,
        at,
        b"NotUnique",
        &said,
        format,
    )
}

/// Adds which values an earlier instance has too, and by which rule; answers the place to look at.
fn say_not_unique(
    said: &mut Said,
    instance: &Instance<'_>,
    broken: &BrokenUnique<'_>,
) -> Result<usize, AllocError> {
    let subject = instance.subject;
    let at = say_values(said, instance, broken.attributes)?;
    said.say((" of #", broken.earlier, " too, "))?;
    say_named(said, subject, broken.earlier)?;
    said.say((": rule ", broken.rule.label, " of "))?;
    let entity = broken.rule.entity;
    said.say((spelling(&subject.spellings.entities, entity.place()), "."))?;
    Ok(instance.at.saturating_add(at))
}

/// An instance that breaks the bounds of an INVERSE attribute, explained as `explain_fault` explains a fault. The text is that of the
/// schema.
pub fn explain_inverse_count(
    alloc: Global,
    subject: Subject<'_>,
    lines: &mut Lines<'_>,
    text: &[u8],
    broken: &BrokenInverse<'_>,
    format: Format,
) -> Result<String, AllocError>
    // As for `explain_fault`.
    ensures { IfOk result (λ text. IsPrinted (string_bytes text)) }
{
    let mut said = Said::new(alloc);
    let at = match instance_at(alloc, subject, broken.at)? {
        Some(instance) => say_inverse_count(&mut said, &instance, text, broken)?,
        None => in_text(subject.file, broken.at),
    };
    printed(
        alloc,
        subject,
        lines,
        broken.at,
        at,
        b"InverseCount",
        &said,
        format,
    )
}

/// Adds how many refer to an instance, and how many may; answers the place to look at.
fn say_inverse_count(
    said: &mut Said,
    instance: &Instance<'_>,
    text: &[u8],
    broken: &BrokenInverse<'_>,
) -> Result<usize, AllocError> {
    let spellings = instance.subject.spellings;
    say_record(said, instance, 0)?;
    said.say("; ")?;
    let from = said.len();
    say_referring(said, broken)?;
    said.say(spelling(&spellings.attributes, broken.attribute.place()))?;
    said.say((" of ", spelling(&spellings.entities, broken.source.place())))?;
    said.found = said.since(from);
    said.say(", and ")?;
    say_attribute(said, spelled(text, broken.rule.label))?;
    let entity = spelling(&spellings.entities, broken.rule.entity.place());
    said.say((" of ", entity, " asks for "))?;
    say_bounds(said, broken)?;
    Ok(instance.at)
}

/// Adds how many refer to an instance, in front of the attribute by which they do.
fn say_referring(said: &mut Said, broken: &BrokenInverse<'_>) -> Result<(), AllocError> {
    let refer = match (broken.is_bag, broken.count) {
        (true, 1) => " reference to it is in ",
        (true, _) => " references to it are in ",
        (false, 1) => " instance refers to it by ",
        (false, _) => " instances refer to it by ",
    };
    said.say((broken.count, refer))
}

/// Adds what the bounds of a rule ask for.
fn say_bounds(said: &mut Said, broken: &BrokenInverse<'_>) -> Result<(), AllocError> {
    match broken.high {
        None => said.say(("at least ", broken.low, ".")),
        Some(high) if high == broken.low => said.say(("exactly ", high, ".")),
        Some(high) if broken.low == 0 => said.say(("at most ", high, ".")),
        Some(high) => said.say((broken.low, " to ", high, ".")),
    }
}

/// Adds what an instance is, and its values of some attributes: `#1 is a Part; its Id 'a' and Name 'b' are those`; answers the place of the
/// first, in bytes from the instance's first byte.
fn say_values(
    said: &mut Said,
    instance: &Instance<'_>,
    attributes: &[AttrId],
) -> Result<usize, AllocError> {
    let place = attributes
        .first()
        .and_then(|id| instance.parameter_for(*id));
    let (rec, attr) = place.unwrap_or((0, 0));
    say_record(said, instance, rec)?;
    said.say("; its ")?;
    let from = said.len();
    for (position, id) in attributes.iter().enumerate() {
        said.say(if position == 0 { "" } else { " and " })?;
        say_value(said, instance, *id)?;
    }
    said.found = said.since(from);
    let is_one = attributes.len() == 1;
    said.say(if is_one { " is that" } else { " are those" })?;
    Ok(instance.place_of(Spot::Parameter { rec, attr }))
}

/// Adds an attribute, and its value in an instance.
fn say_value(said: &mut Said, instance: &Instance<'_>, id: AttrId) -> Result<(), AllocError> {
    let (rec, attr) = instance.parameter_for(id).unwrap_or((0, 0));
    let from = said.len();
    said.say(spelling(&instance.subject.spellings.attributes, id.place()))?;
    said.attribute = said.attribute.or(said.since(from));
    said.say((" ", Front(instance.parameter(rec, attr))))
}

/// The name at a place; nothing where there is none.
pub(crate) fn spelling(names: &[Vec<u8>], place: usize) -> &[u8] {
    names.get(place).map_or(b"".as_slice(), |it| it.as_slice())
}

/// A rule that was not checked, in a line; as an object of JSON with its place in the text. The path, the text and the spellings are those of the
/// schema.
pub fn explain_passed_over(
    alloc: Global,
    path: &str,
    text: &[u8],
    spellings: &Spellings,
    unchecked: &UncheckedRule<'_>,
    format: Format,
) -> Result<String, AllocError>
    // As for `explain_fault`.
    ensures { IfOk result (λ text. IsPrinted (string_bytes text)) }
{
    let mut said = Said::new(alloc);
    said.say((path, ": "))?;
    match unchecked.rule.form {
        RuleForm::Unique => said.say(("rule ", unchecked.rule.label))?,
        RuleForm::Inverse => {
            said.say("INVERSE attribute ")?;
            say_attribute(&mut said, spelled(text, unchecked.rule.label))?;
        }
    }
    said.say(" of ")?;
    let from = said.len();
    said.say(spelling(&spellings.entities, unchecked.rule.entity.place()))?;
    said.entity = said.since(from);
    said.say(" was not checked")?;
    say_reason(&mut said, text, unchecked)?;
    let found = Finding {
        path,
        at: in_text(text, unchecked.at),
        reported: unchecked.at,
        what: "rule",
        kind: b"NotChecked",
    };
    print_line(alloc, &mut Lines::new(text), &found, &said, format)
}

/// Adds why a rule was not checked, and of a rule UNIQUE in which instances, where it was in others.
fn say_reason(
    said: &mut Said,
    text: &[u8],
    unchecked: &UncheckedRule<'_>,
) -> Result<(), AllocError> {
    let form = unchecked.rule.form;
    match unchecked.reason {
        Reason::NoNumbers => said.say(": its bounds are not numbers."),
        Reason::NotExplicit { attribute } => {
            said.say(": ")?;
            say_its_attribute(said, text, form, attribute)?;
            said.say(" is derived or inverse.")
        }
        Reason::DerivedBy { attribute, subtype } => {
            let entity = spelled(text, subtype);
            if form == RuleForm::Unique {
                said.say((" in instances of ", entity))?;
            }
            said.say(": ")?;
            say_its_attribute(said, text, form, attribute)?;
            match form {
                RuleForm::Unique => said.say(" is derived there."),
                RuleForm::Inverse => said.say((" is derived in instances of ", entity, ".")),
            }
        }
    }
}

/// Adds the attribute of a rule, in front of what it is: `its attribute Id`, or `it is FOR Parts, which`.
fn say_its_attribute(
    said: &mut Said,
    text: &[u8],
    form: RuleForm,
    name: &[u8],
) -> Result<(), AllocError> {
    match form {
        RuleForm::Unique => {
            said.say("its attribute ")?;
            say_attribute(said, spelled(text, name))
        }
        RuleForm::Inverse => said.say(("it is FOR ", spelled(text, name), ", which")),
    }
}

/// Adds the name of the attribute that is told of.
fn say_attribute(said: &mut Said, name: &[u8]) -> Result<(), AllocError> {
    let from = said.len();
    said.say(name)?;
    said.attribute = said.since(from);
    Ok(())
}

/// A name as a text first spells it.
pub(crate) fn spelled<'a>(text: &'a [u8], name: &'a [u8]) -> &'a [u8] {
    let mut rest = text;
    while let Some((word, behind)) = next_word(rest) {
        if word.eq_ignore_ascii_case(name) {
            return word;
        }
        rest = behind;
    }
    name
}
