//! The evaluation of expressions.

ghost use Rattle.std.specs.Prelude.{◌≡◌, ◌++◌, ◌∷◌, [], ℕ, List, map, slice_get, slice_set, replicate, OnOk, IfOk, IfErr};
ghost use Rattle.p21_values.specs.Plain.{Val, Vals, plain, plain_all, several, nothing};
ghost use Rattle.p21_values.specs.Ends.{Gives, gives, ClaimsNothing};
ghost use Rattle.p21_values.specs.Operators.{binary_of};
ghost use Rattle.p21_values.specs.declared.operators.BinaryOperator.TheVariants.{Equal};
ghost use Rattle.p21_evaluate.specs.Ends.{GivesAll, GivesVals, GivesPlace, Does, plain_reply, returned_value, step_of};
ghost use Rattle.p21_evaluate.specs.Meaning.{Answers, meaning, by_parts, followed, value_of_slot, query_bare, query_of, true_bare, kept, keep_if, keeps_places, left_out, before, each, called, block, does, does_by_parts, is_true, loop, turns, turn_of, until_of, place_of, chosen};

use crate::combine::combine;
use crate::counting::{count, stepped};
use crate::end::End;
use crate::make::make;
use crate::term::{Function, Label, Literal, Statement, Term};
use crate::world::{Reply, World};
use p21_values::{BinaryOperator, Budget, Kind, Stop, Truth, Value, binary, unary};
use std::alloc::Global;
use std::rc::Rc;

/// The value of an expression, where variables have these values. The variables are as they were.
///
/// TooDeep comes where expressions and statements are nested deeper than `depth`, and NotComputed where an integer is out of range, each as
/// `meaning` says. Memory, Limit (no step is left) and NotCompared say nothing of the value. All this is said of a world that is known.
#[cycle(run)]
#[tactic(auto, using(crate::proofs::Steps::ends_then, crate::proofs::Steps::ends_any))]
pub fn evaluate<'w, 'p: 'w, W: World>(
    world: &'w W,
    functions: &'w [Function<'p>],
    depth: usize,
    budget: &mut Budget,
    term: &Term<'p>,
    slots: &mut Vec<Value<'w>>,
) -> Result<Value<'w>, Stop>
    ensures value { W.known world.now → Gives result (meaning depth (record { same = W.same world.now; replied = W.replied world.now; made = W.made world.now }) functions.entry.now term.now (map plain slots.old.items)) }
    ensures slots { OnOk result (slots.new.items ≡ slots.old.items) }
{
    if depth == 0 {
        return Err(Stop::TooDeep);
    }
    budget.take()?;
    by_parts(world, functions, depth - 1, budget, term, slots)
}

#[cycle(run)]
#[tactic(auto, using(crate::proofs::Steps::ends_then, crate::proofs::Steps::ends_any))]
fn by_parts<'w, 'p: 'w, W: World>(
    world: &'w W,
    functions: &'w [Function<'p>],
    depth: usize,
    budget: &mut Budget,
    term: &Term<'p>,
    slots: &mut Vec<Value<'w>>,
) -> Result<Value<'w>, Stop>
    ensures value { W.known world.now → Gives result (by_parts (record { same = W.same world.now; replied = W.replied world.now; made = W.made world.now }) (meaning depth (record { same = W.same world.now; replied = W.replied world.now; made = W.made world.now }) functions.entry.now) (λ k. called (block (does depth (record { same = W.same world.now; replied = W.replied world.now; made = W.made world.now }) functions.entry.now)) (slice_get functions.entry.now k)) term.now (map plain slots.old.items)) }
    ensures slots { OnOk result (slots.new.items ≡ slots.old.items) }
{
    match term {
        Term::Literal(literal) => {
            let spelled: Literal<'w> = *literal;
            Ok(spelled.value())
        }
        Term::Local(slot) => local(slots, *slot),
        Term::Apply(operator, of) => {
            let of = evaluate(world, functions, depth, budget, of, slots)?;
            unary(*operator, &of)
        }
        Term::Ask(question, of) => {
            let of = evaluate(world, functions, depth, budget, of, slots)?;
            let reply = world.ask(budget, *question, &of)?;
            follow(world, functions, depth, budget, reply, of)
        }
        Term::Combine(combination, left, right) => {
            let left = evaluate(world, functions, depth, budget, left, slots)?;
            let right = evaluate(world, functions, depth, budget, right, slots)?;
            combine(world, budget, *combination, &left, &right)
        }
        Term::Make(making, parts) => {
            let values = each(world, functions, depth, budget, parts, slots)?;
            make(world, budget, *making, values)
        }
        Term::Query(over, test) => {
            let over = evaluate(world, functions, depth, budget, over, slots)?;
            query(world, functions, depth, budget, test, slots, &over)
        }
        Term::Call(function, parts) => {
            let args = each(world, functions, depth, budget, parts, slots)?;
            call(world, functions, depth, budget, *function, args)
        }
    }
}

/// What is answered about a value.
#[cycle(run)]
#[tactic(auto, using(crate::proofs::Steps::ends_then, crate::proofs::Steps::ends_any))]
fn follow<'w, 'p: 'w, W: World>(
    world: &'w W,
    functions: &'w [Function<'p>],
    depth: usize,
    budget: &mut Budget,
    reply: Reply<'w>,
    of: Value<'w>,
) -> Result<Value<'w>, Stop>
    ensures { W.known world.now → Gives result (followed (λ k. called (block (does depth (record { same = W.same world.now; replied = W.replied world.now; made = W.made world.now }) functions.entry.now)) (slice_get functions.entry.now k)) (plain of.entry) (plain_reply reply.entry)) }
{
    match reply {
        Reply::Value(value) => Ok(value),
        Reply::Call(function) => {
            let args = alone(budget.alloc(), of)?;
            call(world, functions, depth, budget, function, args)
        }
    }
}

/// A call of a function.
#[cycle(run)]
#[tactic(auto, using(crate::proofs::Steps::ends_then, crate::proofs::Steps::ends_any))]
fn call<'w, 'p: 'w, W: World>(
    world: &'w W,
    functions: &'w [Function<'p>],
    depth: usize,
    budget: &mut Budget,
    function: usize,
    args: Vec<Value<'w>>,
) -> Result<Value<'w>, Stop>
    ensures { W.known world.now → Gives result (called (block (does depth (record { same = W.same world.now; replied = W.replied world.now; made = W.made world.now }) functions.entry.now)) (slice_get functions.entry.now function) (map plain args.entry.items)) }
{
    match functions.get(function) {
        None => Ok(Value::Indeterminate),
        Some(called) => {
            let mut slots = args;
            widen(&mut slots, called.locals)?;
            let end = block(world, functions, depth, budget, &called.body, &mut slots)?;
            Ok(returned(end))
        }
    }
}

/// Statements, one after the other.
#[cycle(run)]
#[tactic(auto, using(crate::proofs::Steps::ends_then, crate::proofs::Steps::ends_any))]
fn block<'w, 'p: 'w, W: World>(
    world: &'w W,
    functions: &'w [Function<'p>],
    depth: usize,
    budget: &mut Budget,
    statements: &[Statement<'p>],
    slots: &mut Vec<Value<'w>>,
) -> Result<End<'w>, Stop>
    ensures { W.known world.now → Does result slots.new.items (block (does depth (record { same = W.same world.now; replied = W.replied world.now; made = W.made world.now }) functions.entry.now) statements.now (map plain slots.old.items)) }
{
    for statement in statements {
        let end = run(world, functions, depth, budget, statement, slots)?;
        if !end.goes_on() {
            return Ok(end);
        }
    }
    Ok(End::GoesOn)
}

/// A statement.
#[cycle(run)]
#[tactic(auto, using(crate::proofs::Steps::ends_then, crate::proofs::Steps::ends_any))]
fn run<'w, 'p: 'w, W: World>(
    world: &'w W,
    functions: &'w [Function<'p>],
    depth: usize,
    budget: &mut Budget,
    statement: &Statement<'p>,
    slots: &mut Vec<Value<'w>>,
) -> Result<End<'w>, Stop>
    ensures { W.known world.now → Does result slots.new.items (does depth (record { same = W.same world.now; replied = W.replied world.now; made = W.made world.now }) functions.entry.now statement.now (map plain slots.old.items)) }
{
    if depth == 0 {
        return Err(Stop::TooDeep);
    }
    budget.take()?;
    does_by_parts(world, functions, depth - 1, budget, statement, slots)
}

#[cycle(run)]
#[tactic(auto, using(crate::proofs::Steps::ends_then, crate::proofs::Steps::ends_any))]
fn does_by_parts<'w, 'p: 'w, W: World>(
    world: &'w W,
    functions: &'w [Function<'p>],
    depth: usize,
    budget: &mut Budget,
    statement: &Statement<'p>,
    slots: &mut Vec<Value<'w>>,
) -> Result<End<'w>, Stop>
    ensures { W.known world.now → Does result slots.new.items (does_by_parts (W.same world.now) (meaning depth (record { same = W.same world.now; replied = W.replied world.now; made = W.made world.now }) functions.entry.now) (does depth (record { same = W.same world.now; replied = W.replied world.now; made = W.made world.now }) functions.entry.now) statement.now (map plain slots.old.items)) }
{
    match statement {
        Statement::Assign(slot, term) => {
            let value = evaluate(world, functions, depth, budget, term, slots)?;
            assign(slots, *slot, value);
            Ok(End::GoesOn)
        }
        Statement::If(condition, yes, no) => {
            let value = evaluate(world, functions, depth, budget, condition, slots)?;
            if is_true(&value) {
                block(world, functions, depth, budget, yes, slots)
            } else {
                block(world, functions, depth, budget, no, slots)
            }
        }
        Statement::Case(of, labels, last, statements) => {
            let of = evaluate(world, functions, depth, budget, of, slots)?;
            let place = place(world, functions, depth, budget, &of, labels, *last, slots)?;
            chosen(world, functions, depth, budget, statements, place, slots)
        }
        Statement::Repeat(slot, first, last, step, condition, until, body) => {
            let first = evaluate(world, functions, depth, budget, first, slots)?;
            let last = evaluate(world, functions, depth, budget, last, slots)?;
            let step = evaluate(world, functions, depth, budget, step, slots)?;
            repeat(
                world, functions, depth, budget, *slot, &first, &last, &step, condition, until,
                body, slots,
            )
        }
        Statement::Block(statements) => {
            block(world, functions, depth, budget, statements, slots)
        }
        Statement::Escape => Ok(End::Escapes),
        Statement::Skip => Ok(End::Skips),
        Statement::Return(term) => {
            let value = evaluate(world, functions, depth, budget, term, slots)?;
            Ok(End::Returns(value))
        }
    }
}

/// The place of the first label that equals a value, else the last place.
#[cycle(run)]
#[tactic(auto, using(crate::proofs::Steps::ends_then, crate::proofs::Steps::ends_any))]
fn place<'w, 'p: 'w, W: World>(
    world: &'w W,
    functions: &'w [Function<'p>],
    depth: usize,
    budget: &mut Budget,
    of: &Value<'w>,
    labels: &[Label<'p>],
    last: usize,
    slots: &mut Vec<Value<'w>>,
) -> Result<usize, Stop>
    ensures place { W.known world.now → GivesPlace result (place_of (λ t. meaning depth (record { same = W.same world.now; replied = W.replied world.now; made = W.made world.now }) functions.entry.now t (map plain slots.old.items)) (λ u. binary_of (W.same world.now) Equal (plain of.now) u) labels.now last) }
    ensures slots { OnOk result (slots.new.items ≡ slots.old.items) }
{
    for label in labels {
        let value = evaluate(world, functions, depth, budget, &label.value, slots)?;
        let answer = binary(BinaryOperator::Equal, of, &value, world, budget)?;
        if is_true(&answer) {
            return Ok(label.place);
        }
    }
    Ok(last)
}

/// The statement at a place, if there is one.
#[cycle(run)]
#[tactic(auto, using(crate::proofs::Steps::ends_then, crate::proofs::Steps::ends_any))]
fn chosen<'w, 'p: 'w, W: World>(
    world: &'w W,
    functions: &'w [Function<'p>],
    depth: usize,
    budget: &mut Budget,
    statements: &[Statement<'p>],
    place: usize,
    slots: &mut Vec<Value<'w>>,
) -> Result<End<'w>, Stop>
    ensures { W.known world.now → Does result slots.new.items (chosen (does depth (record { same = W.same world.now; replied = W.replied world.now; made = W.made world.now }) functions.entry.now) (slice_get statements.now place) (map plain slots.old.items)) }
{
    match statements.get(place) {
        None => Ok(End::GoesOn),
        Some(statement) => run(world, functions, depth, budget, statement, slots),
    }
}

/// A loop from a value to another by steps.
#[cycle(run)]
#[tactic(auto, using(crate::proofs::Steps::ends_then, crate::proofs::Steps::ends_any))]
fn repeat<'w, 'p: 'w, W: World>(
    world: &'w W,
    functions: &'w [Function<'p>],
    depth: usize,
    budget: &mut Budget,
    slot: usize,
    first: &Value<'w>,
    last: &Value<'w>,
    step: &Value<'w>,
    condition: &Term<'p>,
    until: &Term<'p>,
    body: &[Statement<'p>],
    slots: &mut Vec<Value<'w>>,
) -> Result<End<'w>, Stop>
    ensures { W.known world.now → Does result slots.new.items (loop (turn_of (meaning depth (record { same = W.same world.now; replied = W.replied world.now; made = W.made world.now }) functions.entry.now condition.now) (meaning depth (record { same = W.same world.now; replied = W.replied world.now; made = W.made world.now }) functions.entry.now until.now) (block (does depth (record { same = W.same world.now; replied = W.replied world.now; made = W.made world.now }) functions.entry.now) body.now)) slot (plain first.now) (plain last.now) (plain step.now) (map plain slots.old.items)) }
{
    let count = count(first, last, step)?;
    turns(
        world, functions, depth, budget, slot, first, step, count, condition, until, body, slots,
    )
}

/// So many turns of a loop, from a value on by steps.
#[cycle(run)]
#[tactic(auto, using(crate::proofs::Steps::ends_then, crate::proofs::Steps::ends_any))]
fn turns<'w, 'p: 'w, W: World>(
    world: &'w W,
    functions: &'w [Function<'p>],
    depth: usize,
    budget: &mut Budget,
    slot: usize,
    first: &Value<'w>,
    step: &Value<'w>,
    count: usize,
    condition: &Term<'p>,
    until: &Term<'p>,
    body: &[Statement<'p>],
    slots: &mut Vec<Value<'w>>,
) -> Result<End<'w>, Stop>
    ensures { W.known world.now → Does result slots.new.items (turns (turn_of (meaning depth (record { same = W.same world.now; replied = W.replied world.now; made = W.made world.now }) functions.entry.now condition.now) (meaning depth (record { same = W.same world.now; replied = W.replied world.now; made = W.made world.now }) functions.entry.now until.now) (block (does depth (record { same = W.same world.now; replied = W.replied world.now; made = W.made world.now }) functions.entry.now) body.now)) slot (plain first.now) (plain step.now) 0 count (map plain slots.old.items)) }
{
    for done in 0..count {
        let at = stepped(first, step, done)?;
        assign(slots, slot, at);
        let end = turn(
            world, functions, depth, budget, condition, until, body, slots,
        )?;
        match end.leaves() {
            Some(left) => return Ok(left),
            None => {}
        }
    }
    Ok(End::GoesOn)
}

/// A turn of a loop: WHILE before it, the statements, UNTIL behind it.
#[cycle(run)]
#[tactic(auto, using(crate::proofs::Steps::ends_then, crate::proofs::Steps::ends_any))]
fn turn<'w, 'p: 'w, W: World>(
    world: &'w W,
    functions: &'w [Function<'p>],
    depth: usize,
    budget: &mut Budget,
    condition: &Term<'p>,
    until: &Term<'p>,
    body: &[Statement<'p>],
    slots: &mut Vec<Value<'w>>,
) -> Result<End<'w>, Stop>
    ensures { W.known world.now → Does result slots.new.items (turn_of (meaning depth (record { same = W.same world.now; replied = W.replied world.now; made = W.made world.now }) functions.entry.now condition.now) (meaning depth (record { same = W.same world.now; replied = W.replied world.now; made = W.made world.now }) functions.entry.now until.now) (block (does depth (record { same = W.same world.now; replied = W.replied world.now; made = W.made world.now }) functions.entry.now) body.now) (map plain slots.old.items)) }
{
    let goes = evaluate(world, functions, depth, budget, condition, slots)?;
    if is_true(&goes) {
        let end = block(world, functions, depth, budget, body, slots)?;
        ended(world, functions, depth, budget, until, end, slots)
    } else {
        Ok(End::Escapes)
    }
}

/// Whether UNTIL ends a loop behind a turn.
#[cycle(run)]
#[tactic(auto, using(crate::proofs::Steps::ends_then, crate::proofs::Steps::ends_any))]
fn ended<'w, 'p: 'w, W: World>(
    world: &'w W,
    functions: &'w [Function<'p>],
    depth: usize,
    budget: &mut Budget,
    until: &Term<'p>,
    end: End<'w>,
    slots: &mut Vec<Value<'w>>,
) -> Result<End<'w>, Stop>
    ensures { W.known world.now → Does result slots.new.items (until_of (meaning depth (record { same = W.same world.now; replied = W.replied world.now; made = W.made world.now }) functions.entry.now until.now) (step_of end.entry slots.old.items)) }
{
    match end {
        End::GoesOn | End::Skips => {
            let ends = evaluate(world, functions, depth, budget, until, slots)?;
            Ok(if is_true(&ends) {
                End::Escapes
            } else {
                End::GoesOn
            })
        }
        end => Ok(end),
    }
}

/// The elements of an aggregate for which a test is TRUE.
#[cycle(run)]
#[tactic(auto, using(crate::proofs::Steps::ends_then, crate::proofs::Steps::ends_any))]
fn query<'w, 'p: 'w, W: World>(
    world: &'w W,
    functions: &'w [Function<'p>],
    depth: usize,
    budget: &mut Budget,
    test: &Term<'p>,
    slots: &mut Vec<Value<'w>>,
    over: &Value<'w>,
) -> Result<Value<'w>, Stop>
    ensures value { W.known world.now → Gives result (query_of (λ x. meaning depth (record { same = W.same world.now; replied = W.replied world.now; made = W.made world.now }) functions.entry.now test.now (map plain slots.old.items ++ x ∷ [])) (plain over.now)) }
    ensures slots { OnOk result (slots.new.items ≡ slots.old.items) }
{
    query_bare(world, functions, depth, budget, test, slots, over.bare())
}

#[cycle(run)]
#[tactic(auto, using(crate::proofs::Steps::ends_then, crate::proofs::Steps::ends_any))]
fn query_bare<'w, 'p: 'w, W: World>(
    world: &'w W,
    functions: &'w [Function<'p>],
    depth: usize,
    budget: &mut Budget,
    test: &Term<'p>,
    slots: &mut Vec<Value<'w>>,
    over: &Value<'w>,
) -> Result<Value<'w>, Stop>
    ensures value { W.known world.now → Gives result (query_bare (λ x. meaning depth (record { same = W.same world.now; replied = W.replied world.now; made = W.made world.now }) functions.entry.now test.now (map plain slots.old.items ++ x ∷ [])) (plain over.now)) }
    ensures slots { OnOk result (slots.new.items ≡ slots.old.items) }
{
    match over {
        Value::Aggregate(kind, values) => {
            let places = keeps_places(*kind);
            let kept = kept(world, functions, depth, budget, test, slots, places, values)?;
            aggregate(budget.alloc(), *kind, kept)
        }
        _ => Ok(Value::Indeterminate),
    }
}

#[cycle(run)]
#[tactic(auto, using(crate::proofs::Steps::ends_then, crate::proofs::Steps::ends_any))]
fn kept<'w, 'p: 'w, W: World>(
    world: &'w W,
    functions: &'w [Function<'p>],
    depth: usize,
    budget: &mut Budget,
    test: &Term<'p>,
    slots: &mut Vec<Value<'w>>,
    places: bool,
    values: &[Value<'w>],
) -> Result<Vec<Value<'w>>, Stop>
    ensures values { W.known world.now → GivesVals result (kept places (λ x. meaning depth (record { same = W.same world.now; replied = W.replied world.now; made = W.made world.now }) functions.entry.now test.now (map plain slots.old.items ++ x ∷ [])) (plain_all values.now)) }
    ensures slots { OnOk result (slots.new.items ≡ slots.old.items) }
{
    let mut kept = Vec::new(budget.alloc());
    for value in values {
        push(slots, value.share()?)?;
        let answer = evaluate(world, functions, depth, budget, test, slots)?;
        let _ = slots.pop();
        keep(&mut kept, places, is_true(&answer), value)?;
    }
    Ok(kept)
}

/// The values of expressions, from the left.
#[cycle(run)]
#[tactic(auto, using(crate::proofs::Steps::ends_then, crate::proofs::Steps::ends_any))]
fn each<'w, 'p: 'w, W: World>(
    world: &'w W,
    functions: &'w [Function<'p>],
    depth: usize,
    budget: &mut Budget,
    terms: &[Term<'p>],
    slots: &mut Vec<Value<'w>>,
) -> Result<Vec<Value<'w>>, Stop>
    ensures values { W.known world.now → GivesAll result (each (λ e. meaning depth (record { same = W.same world.now; replied = W.replied world.now; made = W.made world.now }) functions.entry.now e (map plain slots.old.items)) terms.now) }
    ensures slots { OnOk result (slots.new.items ≡ slots.old.items) }
{
    let mut values = Vec::new(budget.alloc());
    for term in terms {
        let value = evaluate(world, functions, depth, budget, term, slots)?;
        push(&mut values, value)?;
    }
    Ok(values)
}

/// Whether a value is TRUE.
fn is_true(value: &Value<'_>) -> bool
    ensures { result ≡ is_true (plain value.now) }
{
    true_bare(value.bare())
}

fn true_bare(value: &Value<'_>) -> bool
    ensures { result ≡ true_bare (plain value.now) }
{
    matches!(value, Value::Logical(Truth::True))
}

/// Gives a variable a value, if it is there.
fn assign<'w>(slots: &mut Vec<Value<'w>>, slot: usize, value: Value<'w>)
    ensures { map plain slots.new.items ≡ slice_set (map plain slots.old.items) slot (plain value.entry) }
{
    if slot < slots.len() {
        slots[slot] = value;
    }
}

/// So many variables more, which have no value yet.
fn widen<'w>(slots: &mut Vec<Value<'w>>, more: usize) -> Result<(), Stop>
    ensures widened { OnOk result (map plain slots.new.items ≡ map plain slots.old.items ++ replicate more nothing) }
    ensures err { IfErr result ClaimsNothing }
{
    for _n in 0..more {
        push(slots, Value::Indeterminate)?;
    }
    Ok(())
}

/// The value of a function whose statements ended so.
fn returned<'w>(end: End<'w>) -> Value<'w>
    ensures { plain result ≡ returned_value end.entry }
{
    match end {
        End::Returns(value) => value,
        _ => Value::Indeterminate,
    }
}

/// The value of a variable.
fn local<'w>(slots: &[Value<'w>], slot: usize) -> Result<Value<'w>, Stop>
    ensures { Gives result (gives (value_of_slot (slice_get (map plain slots.now) slot))) }
{
    match slots.get(slot) {
        None => Ok(Value::Indeterminate),
        Some(value) => Ok(value.share()?),
    }
}

/// An aggregate of values.
fn aggregate<'w>(alloc: Global, kind: Kind, values: Vec<Value<'w>>) -> Result<Value<'w>, Stop>
    ensures { Gives result (gives (several kind (plain_all values.entry.items))) }
{
    match Rc::new(alloc, values) {
        Ok(values) => Ok(Value::Aggregate(kind, values)),
        Err(_full) => Err(Stop::Memory),
    }
}

/// A value alone.
fn alone<'w>(alloc: Global, value: Value<'w>) -> Result<Vec<Value<'w>>, Stop>
    ensures alone { IfOk result (λ vs. vs.items ≡ value.entry ∷ []) }
    ensures err { IfErr result ClaimsNothing }
{
    let mut values = Vec::new(alloc);
    push(&mut values, value)?;
    Ok(values)
}

/// One more value, where a test was TRUE of it. Elsewhere its place may be kept.
fn keep<'w>(
    kept: &mut Vec<Value<'w>>,
    places: bool,
    yes: bool,
    value: &Value<'w>,
) -> Result<(), Stop>
    ensures kept { OnOk result ((ws : Vals) → before kept.new.items ws ≡ before kept.old.items (keep_if places yes (plain value.now) ws)) }
    ensures err { IfErr result ClaimsNothing }
{
    if yes {
        push(kept, value.share()?)?;
    } else {
        leave_out(kept, places)?;
    }
    Ok(())
}

/// What stands for an element that is left out.
fn leave_out<'w>(kept: &mut Vec<Value<'w>>, places: bool) -> Result<(), Stop>
    ensures kept { OnOk result ((ws : Vals) → before kept.new.items ws ≡ before kept.old.items (left_out places ws)) }
    ensures err { IfErr result ClaimsNothing }
{
    if places {
        push(kept, Value::Indeterminate)?;
    }
    Ok(())
}

/// Whether an aggregate keeps the places of the elements that a query leaves out.
fn keeps_places(kind: Kind) -> bool
    ensures { result ≡ keeps_places kind }
{
    match kind {
        Kind::Array(_) => true,
        _ => false,
    }
}

/// One more value.
fn push<'w>(values: &mut Vec<Value<'w>>, value: Value<'w>) -> Result<(), Stop>
    ensures pushed { OnOk result (values.new.items ≡ values.old.items ++ value.entry ∷ []) }
    ensures err { IfErr result ClaimsNothing }
{
    match values.push(value) {
        Ok(()) => Ok(()),
        Err(_full) => Err(Stop::Memory),
    }
}
