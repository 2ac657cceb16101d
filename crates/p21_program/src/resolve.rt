//! The program of a schema.

ghost use Rattle.std.specs.Prelude.{◌≡◌, ◌++◌, ◌∷◌, [], length, map, replicate, IfOk, OnOk};
ghost use Rattle.p21_program.specs.Spans.{all_spans, count_without_reading, spans_of};

use crate::algorithms::{
    ResolvedTerm, call_over, condition_of_self, condition_over, constant, derivation,
    function_over, is_plain, populations, repeater, routine,
};
use crate::calls::{Evaluated, Functions};
use crate::inverse::{inverse_name, referring_of};
use crate::obstacle::{Halt, Obstacle, Reason, settled};
use crate::program::{Condition, Global as GlobalRules, Owner, Program, Rule};
use crate::scope::Call;
use crate::strings::text_alone;
use crate::tables::{Algorithms, Called, Meanings, Tables, algorithms_of, meanings_of};
use crate::texts::Texts;
use p21_algorithm::{
    Derived, Found, GlobalRule, Item, Owner as Written, Part, Piece, SchemaRules, Source, Span,
};
use p21_express::Kind;
use p21_expression::{DomainRule, Name};
use p21_names::{Derivation, Inverse, Role};
use p21_schema::Schema;
use std::alloc::{AllocError, Global};

/// The rules of a schema.
#[derive(Drop)]
struct Resolved<'a> {
    globals: Vec<GlobalRules<'a>>,
    rules: Vec<Rule<'a>>,
    /// What each rule calls.
    calls: Vec<Vec<Call>>,
}

/// The rules and algorithms of a schema with every name resolved, by what its text has of them, the pieces of its text, its literals, and the text as it is spelled.
/// Each rule is there in the order of the text, or told as passed over; a function, a derivation or a constant that is not evaluated is told so. An error says that
/// memory ran out.
pub fn program_of<'a, 't>(
    alloc: Global,
    schema: &'t Schema,
    rules: &'t SchemaRules<'a>,
    pieces: &[Piece],
    source: Source<'a>,
    texts: &'a Texts,
) -> Result<Program<'a>, AllocError>
    ensures rules { IfOk result (λ p. map (λ r. r.span) p.rules.items ≡ all_spans rules.now.found.items) }
    ensures functions { IfOk result (λ p. length p.functions.items ≡ length p.obstacles.items) }
{
    let found = rules.found.as_slice();
    let meanings = meanings_of(alloc, schema, pieces, found)?;
    let algorithms = algorithms_of(alloc, schema, found)?;
    over_algorithms(
        alloc,
        schema,
        found,
        pieces,
        source,
        texts,
        meanings,
        &algorithms,
    )
}

/// The same with what names mean, and with the functions and constants.
fn over_algorithms<'a, 't>(
    alloc: Global,
    schema: &'t Schema,
    found: &'t [Found<'a>],
    pieces: &[Piece],
    source: Source<'a>,
    texts: &'a Texts,
    meanings: Meanings,
    algorithms: &'t Algorithms,
) -> Result<Program<'a>, AllocError>
    ensures rules { IfOk result (λ p. map (λ r. r.span) p.rules.items ≡ all_spans found.now) }
    ensures functions { IfOk result (λ p. length p.functions.items ≡ length p.obstacles.items) }
{
    let constants = constant_texts(
        alloc,
        &*schema,
        &*found,
        source,
        texts,
        &meanings,
        &*algorithms,
    )?;
    let tables = Tables {
        alloc,
        schema: &*schema,
        source,
        texts,
        meanings: &meanings,
        found: &*found,
        algorithms: &*algorithms,
        constants: &constants,
    };
    let mut functions = called_functions(&tables)?;
    let derivations = derivations(&tables, &mut functions, &*found)?;
    let resolved = all_rules(&tables, &mut functions, &*found)?;
    functions.settle(alloc)?;
    let Resolved {
        globals,
        rules,
        calls,
    } = resolved;
    let rules = judged(alloc, &functions, rules, &calls)?;
    let Evaluated {
        functions,
        obstacles,
    } = functions.evaluated(alloc)?;
    let another_schema = first_elsewhere(&obstacles, &rules);
    let inverses = inverses(alloc, schema, &meanings, pieces)?;
    let asks_users = inverses.len() > 0 || pieces.iter().any(|piece| asks_users(piece));
    let Meanings { names, meanings: _ } = meanings;
    Ok(Program {
        rules,
        globals,
        functions,
        obstacles,
        derivations,
        inverses,
        asks_users,
        names,
        another_schema,
    })
}

/// Whether a piece of the text has the word USEDIN.
fn asks_users(piece: &Piece) -> bool {
    piece.words.iter().any(|word| word.is_name(b"USEDIN"))
}

/// The attributes of INVERSE.
fn inverses(
    alloc: Global,
    schema: &Schema,
    meanings: &Meanings,
    pieces: &[Piece],
) -> Result<Vec<Inverse>, AllocError> {
    let mut inverses = Vec::new(alloc);
    for piece in pieces {
        if let Some(inverse) = inverse_of(schema, meanings, piece) {
            inverses.push(inverse)?;
        }
    }
    Ok(inverses)
}

/// The attribute of INVERSE that a piece of the text declares.
fn inverse_of(schema: &Schema, meanings: &Meanings, piece: &Piece) -> Option<Inverse> {
    let declared = inverse_name(piece)?;
    let referring = referring_of(piece.words)?;
    let redeclared_of = match declared.redeclared_of {
        Some(name) => Some(number(schema.entity(name)?.place())?),
        None => None,
    };
    let role = Role {
        entity: number(schema.entity(referring.source)?.place())?,
        attribute: meanings.attribute(referring.attribute)?,
    };
    Some(Inverse {
        entity: number(schema.entity(declared.entity)?.place())?,
        redeclared_of,
        attribute: meanings.attribute(declared.name)?,
        form: referring.form,
        role,
    })
}

/// Of each function and constant, from the first on, the string that it is as a constant of literals, constants before it and `+` alone.
fn constant_texts<'a, 't>(
    alloc: Global,
    schema: &'t Schema,
    found: &'t [Found<'a>],
    source: Source<'a>,
    texts: &'a Texts,
    meanings: &'t Meanings,
    algorithms: &'t Algorithms,
) -> Result<Vec<Option<Vec<u8>>>, AllocError> {
    let mut constants = Vec::new(alloc);
    for place in 0..algorithms.places.len() {
        let tables = Tables {
            alloc,
            schema,
            source,
            texts,
            meanings,
            found,
            algorithms,
            constants: &constants,
        };
        let text = constant_text(&tables, place)?;
        constants.push(text)?;
    }
    Ok(constants)
}

/// The string that a constant is, at a place among the functions and constants.
fn constant_text(tables: &Tables<'_, '_>, place: usize) -> Result<Option<Vec<u8>>, AllocError> {
    match tables.called(place) {
        Some(Called::Constant(tree)) => text_alone(tables, tree),
        _ => Ok(None),
    }
}

/// The functions and constants of the schema, and the one behind them.
fn called_functions<'a>(tables: &Tables<'a, '_>) -> Result<Functions<'a>, AllocError> {
    let mut functions = Functions::new(tables.alloc);
    for place in 0..tables.algorithms.places.len() {
        if let Some(called) = tables.called(place) {
            let resolved = match called {
                Called::Function(tree) => routine(tables, tree.name.place, tree),
                Called::Constant(tree) => constant(tables, tree.name.place, tree),
            };
            functions.add(tables.alloc, resolved)?;
        }
    }
    functions.add(tables.alloc, repeater(tables.alloc))?;
    Ok(functions)
}

/// The place of the entity in which something stands.
fn entity_of(schema: &Schema, owner: Written) -> Option<usize> {
    match owner {
        Written::Entity(name) => Some(schema.entity(name.text)?.place()),
        _ => None,
    }
}

fn number(place: usize) -> Option<u32> {
    u32::try_from(place).ok()
}

/// The derived attributes.
fn derivations<'a, 't>(
    tables: &Tables<'a, 't>,
    functions: &mut Functions<'a>,
    found: &'t [Found<'a>],
) -> Result<Vec<Derivation>, AllocError> {
    let mut derivations = Vec::new(tables.alloc);
    for one in found {
        if let Item::Derived(derived) = &one.item {
            let entity = entity_of(tables.schema, one.owner);
            let resolved = derivation(tables, one.span.from, entity, derived);
            let function = functions.add(tables.alloc, resolved)?;
            if let Some(derivation) = derived_attribute(tables, entity, derived, function) {
                derivations.push(derivation)?;
            }
        }
    }
    Ok(derivations)
}

/// Which attribute is derived.
fn derived_attribute(
    tables: &Tables,
    entity: Option<usize>,
    derived: &Derived,
    function: usize,
) -> Option<Derivation> {
    let redeclared_of = match derived.redeclared_of {
        Some(name) => Some(number(tables.schema.entity(name.text)?.place())?),
        None => None,
    };
    Some(Derivation {
        entity: number(entity?)?,
        redeclared_of,
        attribute: tables.meanings.attribute(derived.name.text)?,
        function,
    })
}

/// The rules of all that was found.
fn all_rules<'a, 't>(
    tables: &Tables<'a, 't>,
    functions: &mut Functions<'a>,
    found: &'t [Found<'a>],
) -> Result<Resolved<'a>, AllocError>
    ensures { IfOk result (λ r. map (λ rule. rule.span) r.rules.items ≡ all_spans found.now) }
{
    let mut resolved = Resolved {
        globals: Vec::new(tables.alloc),
        rules: Vec::new(tables.alloc),
        calls: Vec::new(tables.alloc),
    };
    for one in found {
        add_rules(tables, functions, &mut resolved, one)?;
    }
    Ok(resolved)
}

/// The rules of what was found.
fn add_rules<'a, 't>(
    tables: &Tables<'a, 't>,
    functions: &mut Functions<'a>,
    all: &mut Resolved<'a>,
    found: &'t Found<'a>,
) -> Result<(), AllocError>
    ensures { OnOk result (map (λ r. r.span) all.new.rules.items ≡ map (λ r. r.span) all.old.rules.items ++ spans_of found.now) }
{
    let owner = owner(tables.schema, found.owner);
    match &found.item {
        Item::DomainRule(rule) => {
            let entity = entity_of(tables.schema, found.owner);
            let resolved = condition_of_self(tables, found.span.from, entity, rule);
            add_rule(tables.alloc, all, found.span, owner, rule.label, resolved)
        }
        Item::GlobalRule(rule) => add_global(tables, functions, all, found, rule),
        Item::PassedOver(part, kind, place) => {
            let obstacle = Halt::told(without_reading(*kind), *place);
            add_passed_over(tables.alloc, all, found.span, owner, *part, obstacle)
        }
        Item::Derived(_) => Ok(()),
        Item::Constant(_) => Ok(()),
        Item::Routine(_) => Ok(()),
    }
}

/// The rule that a part of the text without a reading is to be, where it is to be one.
fn add_passed_over<'a>(
    alloc: Global,
    all: &mut Resolved<'a>,
    span: Span,
    owner: Owner,
    part: Part,
    obstacle: Halt,
) -> Result<(), AllocError>
    ensures { OnOk result (map (λ r. r.span) all.new.rules.items ≡ map (λ r. r.span) all.old.rules.items ++ replicate (count_without_reading part) span) }
{
    match part {
        Part::DomainRule => add_rule(alloc, all, span, owner, None, Err(obstacle)),
        Part::GlobalRule => add_rule(alloc, all, span, Owner::Nothing, None, Err(obstacle)),
        Part::Explicit => Ok(()),
        Part::Derived => Ok(()),
        Part::Inverse => Ok(()),
        Part::Unique => Ok(()),
        Part::Constant => Ok(()),
        Part::Function => Ok(()),
        Part::Procedure => Ok(()),
    }
}

fn without_reading(kind: Kind) -> Reason {
    match kind {
        Kind::Syntax => Reason::NoReading,
        Kind::NotSupported => Reason::TooDeep,
    }
}

/// What a rule is of.
fn owner(schema: &Schema, written: Written) -> Owner {
    let owner = match written {
        Written::Entity(name) => match schema.entity(name.text) {
            Some(entity) => number(entity.place()).map(|place| Owner::Entity(place)),
            None => None,
        },
        Written::Type(name) => match schema.type_named(name.text) {
            Some(id) => number(id.place()).map(|place| Owner::Type(place)),
            None => None,
        },
        Written::Schema => None,
    };
    owner.unwrap_or(Owner::Nothing)
}

/// How many rules stand before a further one in its WHERE.
fn before(rules: &[Rule], owner: Owner) -> usize {
    match rules.last() {
        Some(last) => {
            if last.owner == owner {
                last.before.saturating_add(1)
            } else {
                0
            }
        }
        None => 0,
    }
}

/// A rule, behind those that were found before it.
fn add_rule<'a>(
    alloc: Global,
    all: &mut Resolved<'a>,
    span: Span,
    owner: Owner,
    label: Option<Name<'a>>,
    resolved: Result<ResolvedTerm<'a>, Halt>,
) -> Result<(), AllocError>
    ensures { OnOk result (map (λ r. r.span) all.new.rules.items ≡ map (λ r. r.span) all.old.rules.items ++ span ∷ []) }
{
    let (condition, calls) = match settled(resolved)? {
        Ok(ResolvedTerm { term, calls }) => (Condition::Term(term), calls),
        Err(obstacle) => (Condition::PassedOver(obstacle), Vec::new(alloc)),
    };
    let rule = Rule {
        owner,
        label: match label {
            Some(label) => Some(label.text),
            None => None,
        },
        before: before(&all.rules, owner),
        span,
        condition,
    };
    all.rules.push(rule)?;
    all.calls.push(calls)?;
    Ok(())
}

/// A RULE and its rules.
fn add_global<'a, 't>(
    tables: &Tables<'a, 't>,
    functions: &mut Functions<'a>,
    all: &mut Resolved<'a>,
    found: &Found<'a>,
    rule: &'t GlobalRule<'a>,
) -> Result<(), AllocError>
    ensures { OnOk result (map (λ r. r.span) all.new.rules.items ≡ map (λ r. r.span) all.old.rules.items ++ replicate (length rule.now.rules.items) found.now.span) }
{
    let owner = match number(all.globals.len()) {
        Some(place) => Owner::Global(place),
        None => Owner::Nothing,
    };
    let populations = settled(populations(tables, rule))?;
    let obstacle = match &populations {
        Ok(_) => None,
        Err(obstacle) => Some(*obstacle),
    };
    all.globals.push(GlobalRules {
        name: rule.name.text,
        span: found.span,
        entities: match populations {
            Ok(entities) => entities,
            Err(_) => Vec::new(tables.alloc),
        },
    })?;
    for domain_rule in &rule.rules {
        let resolved = match obstacle {
            Some(obstacle) => Err(Halt::Told(obstacle)),
            None => global_condition(tables, functions, found.span.from, rule, domain_rule),
        };
        add_rule(
            tables.alloc,
            all,
            found.span,
            owner,
            domain_rule.label,
            resolved,
        )?;
    }
    Ok(())
}

/// The condition of a rule of a RULE, over its populations.
fn global_condition<'a, 't>(
    tables: &Tables<'a, 't>,
    functions: &mut Functions<'a>,
    place: usize,
    global: &'t GlobalRule<'a>,
    rule: &DomainRule<'a>,
) -> Result<ResolvedTerm<'a>, Halt> {
    if is_plain(global) {
        return condition_over(tables, place, global, rule);
    }
    let resolved = function_over(tables, place, global, rule)?;
    let function = functions.add(tables.alloc, Ok(resolved))?;
    let term = call_over(tables.alloc, function, global.entities.len())?;
    let mut calls = Vec::new(tables.alloc);
    if calls.push(Call { function, place }).is_err() {
        return Err(Halt::Memory);
    }
    Ok(ResolvedTerm { term, calls })
}

/// The rules, of which those are passed over that call functions that are not evaluated.
fn judged<'a>(
    alloc: Global,
    functions: &Functions<'a>,
    rules: Vec<Rule<'a>>,
    calls: &[Vec<Call>],
) -> Result<Vec<Rule<'a>>, AllocError>
    ensures { IfOk result (λ r. map (λ rule. rule.span) r.items ≡ map (λ rule. rule.span) rules.entry.items) }
{
    let mut judged = Vec::new(alloc);
    let mut place: usize = 0;
    for rule in rules {
        let found = match calls.get(place) {
            Some(calls) => functions.first_in_the_way(calls),
            None => None,
        };
        judged.push(with_obstacle(rule, found))?;
        place = place.saturating_add(1);
    }
    Ok(judged)
}

/// A rule, passed over where something is found in its way.
fn with_obstacle<'a>(rule: Rule<'a>, found: Option<Obstacle>) -> Rule<'a>
    ensures { result.span ≡ rule.entry.span }
{
    match found {
        None => rule,
        Some(obstacle) => {
            let Rule {
                owner,
                label,
                before,
                span,
                condition: _,
            } = rule;
            Rule {
                owner,
                label,
                before,
                span,
                condition: Condition::PassedOver(obstacle),
            }
        }
    }
}

/// The place of the first string that names another schema: the one after which most words stand.
fn first_elsewhere(obstacles: &[Option<Obstacle>], rules: &[Rule]) -> Option<usize> {
    let mut first = None;
    for obstacle in obstacles {
        if let Some(obstacle) = obstacle {
            first = earlier(first, *obstacle);
        }
    }
    for rule in rules {
        if let Condition::PassedOver(obstacle) = &rule.condition {
            first = earlier(first, *obstacle);
        }
    }
    first
}

/// The place that stands first, where an obstacle is another schema.
fn earlier(first: Option<usize>, obstacle: Obstacle) -> Option<usize> {
    if obstacle.reason != Reason::AnotherSchema {
        return first;
    }
    match first {
        Some(place) => Some(place.max(obstacle.place)),
        None => Some(obstacle.place),
    }
}
