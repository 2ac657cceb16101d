//! The part of a parameter that does not fit its type.

ghost use Rattle.std.specs.Prelude.{◌≤◌, length};

use crate::explained::Subject;
use crate::instance::{Instance, Placed};
use crate::types::{Base, article_of, say_names, say_type, type_named};
use crate::values::{element_count, say_value};
use p21_express::{Declarations, TypeExpr, Under};
use p21_printed::{Front, Said};
use p21_schema::{Bounds, Schema, Width};
use p21_text::{Token, binary_bits, next_token, string_len};
use std::alloc::{AllocError, Global};

/// What a type is at last, by the names that stand for it.
#[derive(Clone, Copy)]
pub(crate) enum Shape<'a> {
    /// A type that is no name.
    Plain(&'a TypeExpr),
    /// An ENUMERATION, by its items.
    Items(&'a [Vec<u8>]),
    /// A SELECT, by its name.
    Select(&'a [u8]),
    Entity,
}

/// Parentheses of a parameter that are open.
#[derive(Clone, Copy)]
struct Opened<'a> {
    /// Where they begin, in bytes from the instance's first byte.
    start: usize,
    /// The type of the value in them; of a list none.
    keyword: Option<&'a [u8]>,
    /// What is to be in them.
    item: Shape<'a>,
    /// Whether an element may be left out.
    optional: bool,
    /// How many elements a list may have.
    limits: Limits,
    /// How many values began in them.
    count: u64,
}

/// How many elements a list may have.
#[derive(Clone, Copy)]
struct Limits {
    low: Option<i128>,
    high: Option<i128>,
}

/// A part of a parameter that does not fit its type, in which parentheses it stands, and why.
#[derive(Drop)]
pub(crate) struct Part<'a> {
    opened: Vec<Opened<'a>>,
    /// Where it begins, in bytes from the instance's first byte.
    pub(crate) at: usize,
    wrong: Wrong<'a>,
}

/// Why a part does not fit.
#[derive(Clone, Copy)]
enum Wrong<'a> {
    /// It begins with another token than such a value.
    Value { token: Token<'a>, wanted: Shape<'a> },
    /// It has another number of elements.
    Count { limits: Limits, count: u64 },
}

impl Limits {
    const NONE: Limits = Limits {
        low: None,
        high: None,
    };

    /// Those of a list, a set or a bag.
    fn within(bounds: Bounds) -> Limits {
        Limits {
            low: bounds.low.map(i128::from),
            high: bounds.high.map(i128::from),
        }
    }

    /// Those of an array: the number of its indices.
    fn span(bounds: Bounds) -> Limits {
        match (bounds.low, bounds.high) {
            (Some(low), Some(high)) => {
                let count = i128::from(high) - i128::from(low) + 1;
                Limits {
                    low: Some(count),
                    high: Some(count),
                }
            }
            _ => Limits::NONE,
        }
    }

    fn allow(self, count: u64) -> bool {
        let count = i128::from(count);
        self.low.is_none_or(|low| low <= count) && self.high.is_none_or(|high| count <= high)
    }
}

/// What a type is at last.
pub(crate) fn shape_of<'a>(declared: &'a Declarations, texpr: &'a TypeExpr) -> Shape<'a> {
    let mut texpr = texpr;
    for _ in 0..=declared.types.len() {
        let TypeExpr::Named(name) = texpr else {
            break;
        };
        match type_named(declared, name).map(|it| &it.under) {
            Some(Under::Plain(under)) => texpr = under,
            Some(Under::Items(items)) => return Shape::Items(items),
            Some(Under::Select(_)) => return Shape::Select(name),
            None => return Shape::Entity,
        }
    }
    Shape::Plain(texpr)
}

/// A walk over the tokens of a parameter beside its type.
#[derive(Drop)]
struct Search<'a> {
    schema: &'a Schema,
    bytes: &'a [u8],
    whole: Shape<'a>,
    opened: Vec<Opened<'a>>,
    /// The typed value whose parenthesis is next.
    typed: Option<Opened<'a>>,
}

/// The first part of a parameter, other than its first token, that does not fit the type; none where that shows no such part.
pub(crate) fn part_in<'a>(
    alloc: Global,
    instance: &Instance<'a>,
    rec: u64,
    attr: u64,
    texpr: &'a TypeExpr,
) -> Result<Option<Part<'a>>, AllocError> {
    let schema = instance.subject.schema;
    let mut search = Search {
        schema,
        bytes: instance.bytes,
        whole: shape_of(schema.declared(), texpr),
        opened: Vec::new(alloc),
        typed: None,
    };
    for placed in instance.tokens() {
        if placed.spot.is_in(rec, attr) {
            if let Some((at, wrong)) = search.take(*placed)? {
                return Ok(search.part(at, wrong));
            }
        }
    }
    Ok(None)
}

impl<'a> Search<'a> {
    /// The part that begins at a place, if it is not the whole parameter by its first token.
    fn part(self, at: usize, wrong: Wrong<'a>) -> Option<Part<'a>> {
        if self.opened.is_empty() && matches!(wrong, Wrong::Value { .. }) {
            return None;
        }
        Some(Part {
            opened: self.opened,
            at,
            wrong,
        })
    }

    /// Takes the next token; the place of the part that does not fit, and why, where it shows one.
    fn take(&mut self, placed: Placed<'a>) -> Result<Option<(usize, Wrong<'a>)>, AllocError> {
        match (placed.token, self.typed) {
            (Token::Comma, _) => Ok(None),
            (Token::RParen, _) => Ok(self.close()),
            (Token::LParen, Some(typed)) => {
                self.typed = None;
                self.opened.push(typed)?;
                Ok(None)
            }
            _ => self.begin(placed),
        }
    }

    /// Takes the first token of a value.
    fn begin(&mut self, placed: Placed<'a>) -> Result<Option<(usize, Wrong<'a>)>, AllocError> {
        let (wanted, optional) = self.next_wanted();
        let fits = match placed.token {
            Token::Dollar => optional,
            Token::LParen => self.open_list(wanted, placed.start)?,
            Token::Keyword(keyword) => self.open_typed(wanted, keyword, placed.start),
            _ => is_value(self.schema, self.bytes, wanted, placed),
        };
        if fits {
            return Ok(None);
        }
        let token = placed.token;
        Ok(Some((placed.start, Wrong::Value { token, wanted })))
    }

    /// What the next value is to be, and whether it may be left out; it is counted.
    fn next_wanted(&mut self) -> (Shape<'a>, bool) {
        match self.opened.last_mut() {
            Some(opened) => {
                opened.count = opened.count.saturating_add(1);
                (opened.item, opened.optional)
            }
            None => (self.whole, false),
        }
    }

    /// Opens a list, if one is wanted.
    fn open_list(&mut self, wanted: Shape<'a>, start: usize) -> Result<bool, AllocError> {
        let Shape::Plain(texpr) = wanted else {
            return Ok(false);
        };
        let (limits, optional, item) = match texpr {
            TypeExpr::Array {
                bounds,
                optional,
                item,
            } => (Limits::span(*bounds), *optional, item),
            TypeExpr::List { bounds, item, .. }
            | TypeExpr::Set { bounds, item }
            | TypeExpr::Bag { bounds, item } => (Limits::within(*bounds), false, item),
            _ => return Ok(false),
        };
        self.opened.push(Opened {
            start,
            keyword: None,
            item: shape_of(self.schema.declared(), item),
            optional,
            limits,
            count: 0,
        })?;
        Ok(true)
    }

    /// Notes a typed value, if a SELECT is wanted that has its type.
    fn open_typed(&mut self, wanted: Shape<'a>, keyword: &'a [u8], start: usize) -> bool {
        let declared = self.schema.declared();
        let item = match (wanted, type_named(declared, keyword)) {
            (Shape::Select(select), Some(defined)) if has_type(self.schema, select, keyword) => {
                match &defined.under {
                    Under::Plain(under) => shape_of(declared, under),
                    Under::Items(items) => Shape::Items(items),
                    Under::Select(_) => return false,
                }
            }
            _ => return false,
        };
        self.typed = Some(Opened {
            start,
            keyword: Some(keyword),
            item,
            optional: false,
            limits: Limits::NONE,
            count: 0,
        });
        true
    }

    /// Closes parentheses; the place of the list that ends there, where it has too few elements, or too many.
    fn close(&mut self) -> Option<(usize, Wrong<'a>)> {
        let Opened {
            start,
            limits,
            count,
            ..
        } = self.opened.pop()?;
        if limits.allow(count) {
            return None;
        }
        Some((start, Wrong::Count { limits, count }))
    }
}

/// Whether a SELECT reaches a type.
fn has_type(schema: &Schema, select: &[u8], name: &[u8]) -> bool {
    match schema.type_named(select) {
        Some(select) => schema.select_has(select, name).is_some(),
        None => false,
    }
}

/// Whether a SELECT reaches an entity.
fn has_entity(schema: &Schema, select: &[u8]) -> bool {
    match schema.type_named(select) {
        Some(select) => schema.select_has_entity(select),
        None => false,
    }
}

/// Whether a token is a value of a type.
fn is_value(schema: &Schema, bytes: &[u8], wanted: Shape<'_>, placed: Placed<'_>) -> bool {
    match (wanted, placed.token) {
        (Shape::Entity, Token::Name(_)) => true,
        (Shape::Select(name), Token::Name(_)) => has_entity(schema, name),
        (Shape::Items(items), Token::Enumeration(item)) => {
            items.iter().any(|it| it.as_slice() == item)
        }
        (Shape::Plain(texpr), token) => {
            is_simple(texpr, token) && is_as_wide(texpr, bytes, placed.start)
        }
        _ => false,
    }
}

/// Whether a token is a value of a type that is a word alone, of whatever width.
fn is_simple(texpr: &TypeExpr, token: Token<'_>) -> bool {
    match texpr {
        TypeExpr::Integer => matches!(token, Token::Int(_)),
        TypeExpr::Real => matches!(token, Token::Real(_)),
        TypeExpr::Number => matches!(token, Token::Int(_) | Token::Real(_)),
        TypeExpr::Boolean => matches!(token, Token::Enumeration(b"T" | b"F")),
        TypeExpr::Logical => matches!(token, Token::Enumeration(b"T" | b"F" | b"U")),
        TypeExpr::Text(_) => matches!(token, Token::Str(_)),
        TypeExpr::Binary(_) => matches!(token, Token::Binary(_)),
        _ => false,
    }
}

/// Whether the string or the binary at a place has a width that its type allows; any other value has.
fn is_as_wide(texpr: &TypeExpr, bytes: &[u8], start: usize) -> bool {
    let token = next_token(bytes, start.min(bytes.len())).token;
    match (texpr, token) {
        (TypeExpr::Text(width), Token::Str(body)) => {
            width.count.is_none() || allows(*width, u128::from(string_len(body)))
        }
        (TypeExpr::Binary(width), Token::Binary(digits)) => allows(*width, binary_bits(digits)),
        _ => true,
    }
}

fn allows(width: Width, found: u128) -> bool {
    match width.count {
        Some(count) if width.fixed => found == u128::from(count),
        Some(count) => found <= u128::from(count),
        None => true,
    }
}

/// Adds which part does not fit, and what is there: `Element 2 of 3: found the integer 7.`
pub(crate) fn say_part(
    said: &mut Said,
    instance: &Instance<'_>,
    part: &Part<'_>,
) -> Result<(), AllocError> {
    said.say(". ")?;
    let mut begins = true;
    for opened in &part.opened {
        say_opened(said, instance, opened, begins)?;
        begins = false;
    }
    match part.wrong {
        Wrong::Value { token, wanted } => {
            said.say("found ")?;
            let from = said.len();
            say_value(said, instance.bytes, part.at.min(instance.bytes.len()))?;
            said.found = said.since(from);
            said.say(".")?;
            say_advice(said, wanted, token)
        }
        Wrong::Count { limits, count } => {
            said.say(if begins { "Expected " } else { "expected " })?;
            say_limits(said, limits)?;
            said.say(", found ")?;
            let from = said.len();
            said.say(count)?;
            said.found = said.since(from);
            said.say(".")
        }
    }
}

/// Adds in which parentheses a part stands: in a typed value, or in a list as which element.
fn say_opened(
    said: &mut Said,
    instance: &Instance<'_>,
    opened: &Opened<'_>,
    begins: bool,
) -> Result<(), AllocError> {
    if let Some(keyword) = opened.keyword {
        said.say((Front(instance.subject.name(keyword)), " takes "))?;
        say_shape(said, instance.subject, opened.item)?;
        return said.say(": ");
    }
    let total = element_count(instance.bytes, opened.start.min(instance.bytes.len()));
    said.say(if begins { "Element " } else { "element " })?;
    said.say((opened.count, " of ", total, ": "))
}

/// Adds what a type is at last.
fn say_shape(said: &mut Said, subject: Subject<'_>, shape: Shape<'_>) -> Result<(), AllocError> {
    match shape {
        Shape::Plain(texpr) => {
            said.say(article_of(texpr))?;
            say_type(said, subject, texpr)
        }
        Shape::Items(items) => {
            said.say("an item of ")?;
            say_names(said, None, items)
        }
        Shape::Select(name) => said.say(("a value of the SELECT ", subject.name(name))),
        Shape::Entity => said.say("an instance name"),
    }
}

/// Adds how many elements a list may have.
fn say_limits(said: &mut Said, limits: Limits) -> Result<(), AllocError> {
    let low = limits.low.map_or(0, as_count);
    let Some(high) = limits.high.map(as_count) else {
        said.say(("at least ", low))?;
        return said.say(if low == 1 { " element" } else { " elements" });
    };
    if low != high {
        said.say((low, " to "))?;
    }
    said.say(high)?;
    said.say(if high == 1 { " element" } else { " elements" })
}

/// A number as far as it can be one of elements.
fn as_count(number: i128) -> u64 {
    u64::try_from(number).unwrap_or(0)
}

/// Adds how such a value is written, where the token shows what was perhaps meant.
fn say_advice(said: &mut Said, wanted: Shape<'_>, token: Token<'_>) -> Result<(), AllocError> {
    match (base_of_shape(wanted), token) {
        (Base::Real, Token::Int(digits)) => {
            said.say((" A REAL has a point, as in `", Front(digits), ".`."))
        }
        (Base::Integer, Token::Real(_)) => said.say(" An INTEGER has no point."),
        (Base::Text, Token::Int(digits) | Token::Real(digits)) => {
            said.say((" A STRING is in apostrophes, as in '", Front(digits), "'."))
        }
        (Base::Items, Token::Str(_)) => {
            said.say(" An enumeration value is between points, as in `.METRE.`.")
        }
        (Base::Aggregate, Token::Name(name)) => said.say((
            " A list is in parentheses, even with one element, as in (#",
            name,
            ").",
        )),
        (Base::Select, Token::Int(_) | Token::Real(_) | Token::Str(_) | Token::Enumeration(_)) => {
            said.say(" A value of a SELECT is written with its type.")
        }
        _ => Ok(()),
    }
}

/// The same as far as the advice on values goes.
fn base_of_shape(shape: Shape<'_>) -> Base {
    match shape {
        Shape::Plain(TypeExpr::Integer) => Base::Integer,
        Shape::Plain(TypeExpr::Real) => Base::Real,
        Shape::Plain(TypeExpr::Text(_)) => Base::Text,
        Shape::Plain(
            TypeExpr::Array { .. }
            | TypeExpr::List { .. }
            | TypeExpr::Set { .. }
            | TypeExpr::Bag { .. },
        ) => Base::Aggregate,
        Shape::Plain(_) | Shape::Entity => Base::Other,
        Shape::Items(_) => Base::Items,
        Shape::Select(_) => Base::Select,
    }
}
