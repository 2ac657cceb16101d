//! The rules of WHERE of a schema's text over a model, as they are told.

use crate::run::findings_of;
use itoa::Buffer;
use p21_algorithm::Source;
use p21_algorithm_reader::{pieces, rules_of};
use p21_express::{Refusal, Word, scan, upper_case};
use p21_join::{Model, ModelEntities};
use p21_program::{Condition, Obstacle, Owner, Program, Reason, Rule, Texts, program_of, texts_of};
use p21_schema::Schema;
use p21_text::next_token;
use p21_values::Stop;
use p21_where::{ByThreads, Division, Findings, Found, Limits, Undecided};
use p21_where_findings::{
    BrokenRule, InTheWay, RuleOwner, UndecidedRule, WhereChecker, WhereFindings, WhereRule,
    WhyUnchecked, WhyUndecided,
};
use std::alloc::{AllocError, Global};
use std::thread::Threads;

/// How deep expressions and statements may be nested.
const DEPTH: usize = 500;

/// The checker of the rules of WHERE of a schema's text.
#[derive(Clone, Copy, Debug)]
pub struct TextChecker;

impl WhereChecker for TextChecker {
    fn find<R: Threads + Sync>(
        &self,
        rt: &R,
        alloc: Global,
        schema: &Schema,
        text: &[u8],
        steps: u64,
        file: &[u8],
        model: &Model<'_>,
    ) -> Result<WhereFindings, AllocError> {
        where_findings(&ByThreads { rt }, alloc, schema, text, steps, file, model)
    }
}

/// What the rules of WHERE of a schema's text find in a model, which is of a file. Each evaluation may take so many steps. Memory alone can
/// fail.
pub fn where_findings<D: Division>(
    division: &D,
    alloc: Global,
    schema: &Schema,
    text: &[u8],
    steps: u64,
    file: &[u8],
    model: &Model<'_>,
) -> Result<WhereFindings, AllocError>
    requires { D.ready division.now }
{
    let upper = upper_case(alloc, text)?;
    let scanned = scan(alloc, &upper)?;
    let source = source_of(text, &scanned.places);
    let texts = texts_of(alloc, source, &scanned.words)?;
    let words = scanned.words.as_slice();
    found_by_words(
        division, alloc, schema, words, source, &texts, steps, file, model,
    )
}

/// The same of the words of the text, and its literals.
fn found_by_words<'w, D: Division>(
    division: &D,
    alloc: Global,
    schema: &Schema,
    words: &[Word<'w>],
    source: Source<'w>,
    texts: &'w Texts,
    steps: u64,
    file: &[u8],
    model: &Model<'_>,
) -> Result<WhereFindings, AllocError>
    requires { D.ready division.now }
{
    let (Some(found), Some(parts)) = (
        unless_refused(rules_of(alloc, words))?,
        unless_refused(pieces(alloc, words))?,
    ) else {
        return unread(alloc, source, words);
    };
    let program = program_of(alloc, schema, &found, &parts, source, texts)?;
    let entities = ModelEntities::new(alloc, schema, model)?;
    let limits = Limits {
        steps,
        depth: DEPTH,
    };
    let findings = findings_of(
        division,
        alloc,
        schema,
        &program,
        model,
        entities.entities(),
        limits,
    )?;
    told(alloc, schema, source, &program, &findings, file, model)
}

/// The rules of WHERE of a schema's text, in its order. Memory alone can fail.
pub fn where_rules_of(
    alloc: Global,
    schema: &Schema,
    text: &[u8],
) -> Result<Vec<WhereRule>, AllocError> {
    let upper = upper_case(alloc, text)?;
    let scanned = scan(alloc, &upper)?;
    let source = source_of(text, &scanned.places);
    let texts = texts_of(alloc, source, &scanned.words)?;
    rules_by_words(alloc, schema, scanned.words.as_slice(), source, &texts)
}

/// The same of the words of the text, and its literals.
fn rules_by_words<'w>(
    alloc: Global,
    schema: &Schema,
    words: &[Word<'w>],
    source: Source<'w>,
    texts: &'w Texts,
) -> Result<Vec<WhereRule>, AllocError> {
    let (Some(found), Some(parts)) = (
        unless_refused(rules_of(alloc, words))?,
        unless_refused(pieces(alloc, words))?,
    ) else {
        return Ok(Vec::new(alloc));
    };
    let program = program_of(alloc, schema, &found, &parts, source, texts)?;
    where_rules(alloc, schema, source, &program)
}

/// What was read; `None` where it is refused.
fn unless_refused<T: Drop>(read: Result<T, Refusal>) -> Result<Option<T>, AllocError> {
    match read {
        Ok(read) => Ok(Some(read)),
        Err(Refusal::Memory) => Err(AllocError),
        Err(Refusal::Refused(..)) => Ok(None),
    }
}

/// The text of a schema, with the places of its words.
fn source_of<'s>(text: &'s [u8], places: &'s [usize]) -> Source<'s> {
    Source { text, places }
}

/// Of a schema whose declarations do not end as rules want it: nothing is found, and one rule, which stands for all, has no reading.
fn unread(
    alloc: Global,
    source: Source<'_>,
    words: &[Word<'_>],
) -> Result<WhereFindings, AllocError> {
    let mut rules = Vec::new(alloc);
    rules.push(WhereRule {
        owner: RuleOwner::Schema,
        name: Vec::from_slice(alloc, b"the schema.(all)")?,
        from: 0,
        to: 0,
        in_the_way: Some(InTheWay {
            reason: WhyUnchecked::NoReading,
            at: unread_from(alloc, source, words)?,
        }),
    })?;
    Ok(WhereFindings {
        rules,
        broken: Vec::new(alloc),
        undecided: Vec::new(alloc),
        another_schema: None,
        evaluations: 0,
    })
}

/// From where on the declarations of a schema are refused.
fn unread_from(alloc: Global, source: Source<'_>, words: &[Word<'_>]) -> Result<u64, AllocError> {
    match pieces(alloc, words) {
        Ok(_) => Ok(0),
        Err(Refusal::Memory) => Err(AllocError),
        Err(Refusal::Refused(_, left)) => Ok(source.byte_of(left) as u64),
    }
}

/// Findings as they are told.
fn told(
    alloc: Global,
    schema: &Schema,
    source: Source<'_>,
    program: &Program<'_>,
    findings: &Findings,
    file: &[u8],
    model: &Model<'_>,
) -> Result<WhereFindings, AllocError> {
    let header = header_place(file);
    let mut broken = Vec::new(alloc);
    push_broken(&mut broken, &findings.broken, Over::Instances(model))?;
    push_broken(&mut broken, &findings.broken_globals, Over::All(header))?;
    let mut undecided = Vec::new(alloc);
    push_undecided(&mut undecided, &findings.undecided, Over::Instances(model))?;
    push_undecided(
        &mut undecided,
        &findings.undecided_globals,
        Over::All(header),
    )?;
    Ok(WhereFindings {
        rules: where_rules(alloc, schema, source, program)?,
        broken,
        undecided,
        another_schema: program
            .another_schema
            .map(|place| source.byte_of(place) as u64),
        evaluations: findings.evaluations,
    })
}

/// What findings are of.
#[derive(Clone, Copy)]
enum Over<'m, 'a> {
    Instances(&'m Model<'a>),
    /// All instances, of which is told at this place.
    All(u64),
}

impl Over<'_, '_> {
    /// Where is told of the instance at a place of the model.
    fn at(self, place: usize) -> u64 {
        match self {
            Over::Instances(model) => match model.instances().get(place) {
                Some(instance) => instance.at,
                None => 0,
            },
            Over::All(header) => header,
        }
    }
}

/// Where the HEADER of a file stands: its third token.
fn header_place(file: &[u8]) -> u64 {
    let opening = next_token(file, 0);
    let semicolon = next_token(file, opening.after);
    next_token(file, semicolon.after).start as u64
}

/// Adds broken rules by the places of their instances.
fn push_broken(
    broken: &mut Vec<BrokenRule>,
    found: &[Found],
    over: Over<'_, '_>,
) -> Result<(), AllocError> {
    for one in found {
        broken.push(BrokenRule {
            at: over.at(one.place),
            rule: one.rule,
        })?;
    }
    Ok(())
}

/// Adds rules that are not decided by the places of their instances.
fn push_undecided(
    undecided: &mut Vec<UndecidedRule>,
    found: &[Undecided],
    over: Over<'_, '_>,
) -> Result<(), AllocError> {
    for one in found {
        undecided.push(UndecidedRule {
            at: over.at(one.place),
            rule: one.rule,
            why: why_undecided(one.why),
        })?;
    }
    Ok(())
}

/// The rules of a program.
fn where_rules(
    alloc: Global,
    schema: &Schema,
    source: Source<'_>,
    program: &Program<'_>,
) -> Result<Vec<WhereRule>, AllocError> {
    let mut rules = Vec::new(alloc);
    for rule in &program.rules {
        rules.push(WhereRule {
            owner: owner_of(rule.owner),
            name: name_of(alloc, schema, program, rule)?,
            from: source.byte_of(rule.span.from) as u64,
            to: source.byte_of(rule.span.to) as u64,
            in_the_way: in_the_way(source, &rule.condition),
        })?;
    }
    Ok(rules)
}

fn owner_of(owner: Owner) -> RuleOwner {
    match owner {
        Owner::Type(_) => RuleOwner::Type,
        Owner::Global(_) => RuleOwner::Schema,
        _ => RuleOwner::Entity,
    }
}

/// Adds the name of what a rule is of.
fn push_owner(
    name: &mut Vec<u8>,
    schema: &Schema,
    program: &Program<'_>,
    owner: Owner,
) -> Result<(), AllocError> {
    match owner {
        Owner::Entity(place) => match schema.declared().entities.get(place as usize) {
            Some(declared) => name.extend_from_slice(&declared.name),
            None => Ok(()),
        },
        Owner::Type(place) => match schema.declared().types.get(place as usize) {
            Some(declared) => name.extend_from_slice(&declared.name),
            None => Ok(()),
        },
        Owner::Global(place) => match program.globals.get(place as usize) {
            Some(global) => name.extend_from_slice(global.name),
            None => Ok(()),
        },
        Owner::Nothing => name.extend_from_slice(b"the schema"),
    }
}

/// The name of a rule, behind that of what it is of.
fn name_of(
    alloc: Global,
    schema: &Schema,
    program: &Program<'_>,
    rule: &Rule<'_>,
) -> Result<Vec<u8>, AllocError> {
    let mut name = Vec::new(alloc);
    push_owner(&mut name, schema, program, rule.owner)?;
    name.push(b'.')?;
    match rule.label {
        Some(label) => name.extend_from_slice(label)?,
        None => {
            name.push(b'(')?;
            let number = rule.before as u64;
            name.extend_from_slice(Buffer::new().format(number.saturating_add(1)).as_bytes())?;
            name.push(b')')?;
        }
    }
    Ok(name)
}

fn in_the_way(source: Source<'_>, condition: &Condition<'_>) -> Option<InTheWay> {
    match condition {
        Condition::Term(_) => None,
        Condition::PassedOver(Obstacle { reason, place }) => Some(InTheWay {
            reason: why_unchecked(*reason),
            at: source.byte_of(*place) as u64,
        }),
    }
}

/// Why a rule is not checked, as it is told.
fn why_unchecked(reason: Reason) -> WhyUnchecked {
    match reason {
        Reason::NoReading => WhyUnchecked::NoReading,
        Reason::TooDeep => WhyUnchecked::TooDeep,
        Reason::TooLarge => WhyUnchecked::TooLarge,
        Reason::UnknownName => WhyUnchecked::UnknownName,
        Reason::AnotherSchema => WhyUnchecked::AnotherSchema,
        Reason::NotComputed => WhyUnchecked::NotComputed,
        Reason::WrongCount => WhyUnchecked::WrongCount,
        Reason::Calls(_) => WhyUnchecked::CallsUnchecked,
    }
}

/// Why a rule is not decided, as it is told.
fn why_undecided(stop: Stop) -> WhyUndecided {
    match stop {
        Stop::Limit => WhyUndecided::Steps,
        Stop::TooDeep => WhyUndecided::TooDeep,
        Stop::NotCompared => WhyUndecided::NotCompared,
        Stop::NotComputed => WhyUndecided::NotComputed,
        Stop::Memory => WhyUndecided::Memory,
    }
}
