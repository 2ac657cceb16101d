//! LIKE.

ghost use Rattle.std.specs.Prelude.{◌≡◌, ◌+◌, ◌++◌, ◌∷◌, [], ℕ, List, IfOk, MatchResult, length, option_to_list};
ghost use Rattle.p21_values.specs.Ends.{ClaimsNothing};
ghost use Rattle.p21_values.specs.Pattern.{IsRow, between, emitted, ends_of, is_letter, is_like, last_of, leads_of, like_bare, like_of, mark_of, marks_of, matches, next_of, passes};
ghost use Rattle.p21_values.specs.declared.pattern.Mark.{Mark};
ghost use Rattle.p21_values.specs.declared.pattern.Reading.TheVariants.{Plain};
ghost use Rattle.p21_values.specs.Plain.{codes, plain};

use crate::characters::Characters;
use crate::stop::{Budget, Stop};
use crate::truth::Truth;
use crate::value::Value;
use std::alloc::{AllocError, Global};

/// A mark of a pattern. The flag says whether the mark is negated.
#[derive(Clone, Copy, Debug, Drop)]
pub(crate) enum Mark {
    /// This character.
    Code(u32, bool),
    /// `@`: a letter.
    Letter(bool),
    /// `^`: a letter in upper case.
    Upper(bool),
    /// `#`: a digit.
    Digit(bool),
    /// `?`: one character.
    Any,
    /// A negated mark that stands for any characters: nothing is like it.
    Never,
    /// `*` and `&`: any characters.
    Run,
    /// `$`: characters up to a space or the end.
    Word,
}

/// What is read before the next character of a pattern.
#[derive(Clone, Copy, Debug, Drop)]
pub(crate) enum Reading {
    /// A mark may begin.
    Plain,
    /// `!` was read.
    Negated,
    /// `\` was read, and whether `!` before it.
    Escaped(bool),
}

/// LIKE: whether a text is like a pattern, UNKNOWN where one of the two is no text. An error claims nothing.
pub fn like<'a>(text: &Value, pattern: &Value, budget: &mut Budget) -> Result<Value<'a>, Stop>
    ensures { MatchResult result (λ v. plain v ≡ like_of (plain text.now) (plain pattern.now)) ClaimsNothing }
{
    Ok(Value::Logical(like_bare(text.bare(), pattern.bare(), budget)?))
}

fn like_bare(text: &Value, pattern: &Value, budget: &mut Budget) -> Result<Truth, Stop>
    ensures { MatchResult result (λ t. t ≡ like_bare (plain text.now) (plain pattern.now)) ClaimsNothing }
{
    match (text, pattern) {
        (Value::Text(text), Value::Text(pattern)) => {
            Ok(Truth::of(is_like(text, pattern, budget)?))
        }
        _ => Ok(Truth::Unknown),
    }
}

/// Whether a text is like a pattern.
fn is_like(text: &Characters, pattern: &Characters, budget: &mut Budget) -> Result<bool, Stop>
    ensures { MatchResult result (λ b. b ≡ is_like (codes text.now) (codes pattern.now)) ClaimsNothing }
{
    let marks = marks(pattern, budget)?;
    matches(text, &marks, budget)
}

/// The marks of a pattern.
fn marks(pattern: &Characters, budget: &mut Budget) -> Result<Vec<Mark>, Stop>
    ensures { MatchResult result (λ v. v.items ≡ marks_of Plain (codes pattern.now)) ClaimsNothing }
{
    budget.take_copies(pattern.len())?;
    let mut marks = Vec::new(budget.alloc());
    let mut reading = Reading::Plain;
    for at in 0..pattern.len() {
        let code = pattern.code_at(at);
        add(&mut marks, reading.emitted(code))?;
        reading = reading.next(code);
    }
    add(&mut marks, reading.last())?;
    Ok(marks)
}

fn add(marks: &mut Vec<Mark>, mark: Option<Mark>) -> Result<(), AllocError>
    ensures { IfOk result (λ _. marks.new.items ≡ marks.old.items ++ option_to_list mark) }
{
    if let Some(mark) = mark {
        marks.push(mark)?;
    }
    Ok(())
}

impl Reading {
    /// The mark that ends with a character.
    fn emitted(self, code: u32) -> Option<Mark>
        ensures { result ≡ emitted self code }
    {
        match (self, code) {
            (Reading::Plain, 33 | 92) | (Reading::Negated, 92) => None,
            (Reading::Plain, _) => Some(mark_of(false, code)),
            (Reading::Negated, _) => Some(mark_of(true, code)),
            (Reading::Escaped(negated), _) => Some(Mark::Code(code, negated)),
        }
    }

    /// What is read before the character after this one.
    fn next(self, code: u32) -> Reading
        ensures { result ≡ next_of self code }
    {
        match (self, code) {
            (Reading::Plain, 33) => Reading::Negated,
            (Reading::Plain, 92) => Reading::Escaped(false),
            (Reading::Negated, 92) => Reading::Escaped(true),
            _ => Reading::Plain,
        }
    }

    /// The mark that ends with the pattern.
    fn last(self) -> Option<Mark>
        ensures { result ≡ last_of self }
    {
        match self {
            Reading::Escaped(negated) => Some(Mark::Code(92, negated)),
            _ => None,
        }
    }
}

fn mark_of(negated: bool, code: u32) -> Mark
    ensures { result ≡ mark_of negated code }
{
    match code {
        64 => Mark::Letter(negated),
        94 => Mark::Upper(negated),
        35 => Mark::Digit(negated),
        63 | 42 | 38 | 36 if negated => Mark::Never,
        63 => Mark::Any,
        42 | 38 => Mark::Run,
        36 => Mark::Word,
        _ => Mark::Code(code, negated),
    }
}

impl Mark {
    /// Whether a character passes it.
    fn passes(self, code: u32) -> bool
        ensures { result ≡ passes self code }
    {
        match self {
            Mark::Code(own, negated) => (code == own) != negated,
            Mark::Letter(negated) => is_letter(code) != negated,
            Mark::Upper(negated) => is_between(65, 90, code) != negated,
            Mark::Digit(negated) => is_between(48, 57, code) != negated,
            Mark::Any | Mark::Run => true,
            Mark::Never => false,
            Mark::Word => code != 32,
        }
    }

    /// Whether the empty text is like the mark and others, where it is like those or not.
    fn passes_end(self, others: bool) -> bool
        ensures { result ≡ ends_of self others }
    {
        match self {
            Mark::Run | Mark::Word => others,
            _ => false,
        }
    }

    /// Whether a text is like the mark and others: by its first character, whether what follows that is like the others, the text itself is,
    /// and what follows it is like the mark and the others.
    fn leads(self, code: u32, rest: bool, whole: bool, after: bool) -> bool
        ensures { result ≡ leads_of self code rest whole after }
    {
        match self {
            Mark::Run | Mark::Word => whole || self.passes(code) && after,
            _ => self.passes(code) && rest,
        }
    }
}

/// Whether a code is between two others.
fn is_between(low: u32, high: u32, code: u32) -> bool
    ensures { result ≡ between low high code }
{
    low <= code && code <= high
}

fn is_letter(code: u32) -> bool
    ensures { result ≡ is_letter code }
{
    is_between(65, 90, code) || is_between(97, 122, code)
}

/// Whether a text is like the marks of a pattern. Each mark takes steps for all characters of the text.
fn matches(text: &Characters, marks: &[Mark], budget: &mut Budget) -> Result<bool, Stop>
    ensures { MatchResult result (λ b. b ≡ matches marks.now (codes text.now)) ClaimsNothing }
{
    budget.take_copies(text.len())?;
    let mut row = last_row(budget.alloc(), text.len())?;
    for done in 0..marks.len() {
        budget.take_copies(text.len())?;
        let mark = marks[marks.len() - 1 - done];
        row = next_row(budget.alloc(), mark, text, &row)?;
    }
    Ok(row[text.len()])
}

/// Which ends of a text are like no mark, by their lengths: the empty one alone.
fn last_row(alloc: Global, count: usize) -> Result<Vec<bool>, AllocError>
    ensures { IfOk result (λ row. (text : List ℕ) → length text ≡ count → IsRow [] text row.items) }
{
    let mut row = Vec::new(alloc);
    row.push(true)?;
    for _n in 0..count {
        row.push(false)?;
    }
    Ok(row)
}

/// Which ends of a text are like some marks, by their lengths, from those that are like all marks but the first.
fn next_row(
    alloc: Global,
    mark: Mark,
    text: &Characters,
    row: &[bool],
) -> Result<Vec<bool>, AllocError>
    requires { length row.now ≡ length (codes text.now) + 1 }
    ensures { IfOk result (λ made. (ms : List Mark) → IsRow ms (codes text.now) row.now → IsRow (mark ∷ ms) (codes text.now) made.items) }
{
    let mut made = Vec::new(alloc);
    made.push(mark.passes_end(row[0]))?;
    for at in 0..text.len() {
        let code = text.code_at(text.len() - 1 - at);
        let after = made[at];
        made.push(mark.leads(code, row[at], row[at + 1], after))?;
    }
    Ok(made)
}
