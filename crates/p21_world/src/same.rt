//! The comparison of instances by their attributes.

ghost use Rattle.p21_schema.specs.Place.{IsEntityOf};

use crate::push::push;
use crate::world::FileWorld;
use p21_schema::EntityId;
use p21_values::{Budget, ByPlace, Kind, Stop, Truth, Value};

/// How many instances and aggregates may stand in one another where they are compared.
const DEEPEST: usize = 200;

/// How two aggregates are compared.
#[derive(Clone, Copy, PartialEq, Eq)]
enum Comparison {
    Counted,
    InOrder,
    Never,
}

/// How aggregates of two kinds are compared.
fn comparison_of(first: Kind, second: Kind) -> Comparison {
    match (first, second) {
        (Kind::Bag | Kind::Set, Kind::Array(_) | Kind::List) => Comparison::Never,
        (Kind::Array(_) | Kind::List, Kind::Bag | Kind::Set) => Comparison::Never,
        (Kind::Bag | Kind::Set, _) | (_, Kind::Bag | Kind::Set) => Comparison::Counted,
        (Kind::Array(a), Kind::Array(b)) if a != b => Comparison::Never,
        _ => Comparison::InOrder,
    }
}

/// Two instances that are compared, by their places.
#[derive(Clone, Copy, PartialEq, Eq)]
struct Pair {
    first: u32,
    second: u32,
}

/// Whether two instances are being compared already.
fn is_compared(budget: &mut Budget, pairs: &[Pair], pair: Pair) -> Result<bool, Stop> {
    for other in pairs {
        budget.take()?;
        if *other == pair {
            return Ok(true);
        }
    }
    Ok(false)
}

impl<'x, 'a> FileWorld<'x, 'a> {
    /// Whether two instances are one, or have the same entities and the same explicit attributes.
    pub fn same_by_attributes(
        &self,
        budget: &mut Budget,
        first: u32,
        second: u32,
    ) -> Result<Truth, Stop> {
        let mut pairs = Vec::new(budget.alloc());
        self.same_instances(budget, DEEPEST, &mut pairs, Pair { first, second })
    }

    /// The same, where these pairs are being compared, which count as the same.
    #[cycle(same)]
    fn same_instances(
        &self,
        budget: &mut Budget,
        depth: usize,
        pairs: &mut Vec<Pair>,
        pair: Pair,
    ) -> Result<Truth, Stop> {
        budget.take()?;
        if pair.first == pair.second || is_compared(budget, pairs, pair)? {
            return Ok(Truth::True);
        }
        if !self.has_same_entities(budget, pair)? {
            return Ok(Truth::False);
        }
        push(pairs, pair)?;
        let found = self.same_attributes(budget, depth, pairs, pair)?;
        let _ = pairs.pop();
        Ok(found)
    }

    /// Whether two instances have the same entities.
    fn has_same_entities(&self, budget: &mut Budget, pair: Pair) -> Result<bool, Stop> {
        let (first, second) = (self.entities.of(pair.first), self.entities.of(pair.second));
        if let ([one], [other]) = (first, second) {
            return Ok(one == other);
        }
        let one = self.all_entities(budget, first)?;
        let other = self.all_entities(budget, second)?;
        Ok(one.len() == other.len() && one.iter().all(|entity| other.contains(entity)))
    }

    /// Whether two instances of the same entities have the same explicit attributes.
    #[cycle(same)]
    fn same_attributes(
        &self,
        budget: &mut Budget,
        depth: usize,
        pairs: &mut Vec<Pair>,
        pair: Pair,
    ) -> Result<Truth, Stop> {
        let entities = self.all_entities(budget, self.entities.of(pair.first))?;
        let mut all = Truth::True;
        for entity in &entities {
            if let Some(id) = self.dictionary.schema.entity_at(*entity as usize) {
                all = all.and(self.same_own(budget, depth, pairs, pair, id)?);
                if all == Truth::False {
                    return Ok(Truth::False);
                }
            }
        }
        Ok(all)
    }

    /// Whether two instances have the same explicit attributes of those that an entity newly declares.
    #[cycle(same)]
    fn same_own(
        &self,
        budget: &mut Budget,
        depth: usize,
        pairs: &mut Vec<Pair>,
        pair: Pair,
        entity: EntityId,
    ) -> Result<Truth, Stop>
        requires { IsEntityOf self.now.dictionary.now.schema.now entity }
    {
        let mut all = Truth::True;
        for at in 0..self.dictionary.schema.own_count(entity) {
            let attribute = self.dictionary.schema.own(entity, at).place();
            if self.is_explicit(budget, pair.first, attribute)? {
                let first = self.declared_value(budget, pair.first, attribute)?;
                let second = self.declared_value(budget, pair.second, attribute)?;
                all = all.and(self.same_values(budget, depth, pairs, &first, &second)?);
                if all == Truth::False {
                    return Ok(Truth::False);
                }
            }
        }
        Ok(all)
    }

    /// Whether two values are the same, instances by their attributes.
    #[cycle(same)]
    fn same_values(
        &self,
        budget: &mut Budget,
        depth: usize,
        pairs: &mut Vec<Pair>,
        first: &Value<'_>,
        second: &Value<'_>,
    ) -> Result<Truth, Stop> {
        if depth == 0 {
            return Err(Stop::Limit);
        }
        match (first.bare(), second.bare()) {
            (Value::Instance(first), Value::Instance(second)) => {
                let pair = Pair {
                    first: *first,
                    second: *second,
                };
                self.same_instances(budget, depth - 1, pairs, pair)
            }
            (Value::Aggregate(k, vs), Value::Aggregate(l, ws)) => {
                if vs.len() != ws.len() {
                    return Ok(Truth::False);
                }
                match comparison_of(*k, *l) {
                    Comparison::Never => Ok(Truth::False),
                    Comparison::InOrder => self.same_in_order(budget, depth - 1, pairs, vs, ws),
                    Comparison::Counted => self.same_counted(budget, depth - 1, pairs, vs, ws),
                }
            }
            (first, second) => first.same(second, &ByPlace, budget),
        }
    }

    /// Whether each value is the same as the other in its place.
    #[cycle(same)]
    fn same_in_order(
        &self,
        budget: &mut Budget,
        depth: usize,
        pairs: &mut Vec<Pair>,
        vs: &[Value<'_>],
        ws: &[Value<'_>],
    ) -> Result<Truth, Stop> {
        let mut all = Truth::True;
        for at in 0..vs.len().min(ws.len()) {
            budget.take()?;
            all = all.and(self.same_values(budget, depth, pairs, &vs[at], &ws[at])?);
            if all == Truth::False {
                return Ok(Truth::False);
            }
        }
        Ok(all)
    }

    /// Whether each value has one of the others of its own that is the same.
    #[cycle(same)]
    fn same_counted(
        &self,
        budget: &mut Budget,
        depth: usize,
        pairs: &mut Vec<Pair>,
        vs: &[Value<'_>],
        ws: &[Value<'_>],
    ) -> Result<Truth, Stop> {
        let mut left = Vec::new(budget.alloc());
        for at in 0..ws.len() {
            push(&mut left, at)?;
        }
        let mut all = Truth::True;
        for value in vs {
            let Some((place, truth)) = self.partner(budget, depth, pairs, value, ws, &left)? else {
                return Ok(Truth::False);
            };
            if place < left.len() {
                left.remove(place);
            }
            all = all.and(truth);
        }
        Ok(all)
    }

    /// Of the values at the places that are left the first that is the same, and else the first that may be.
    #[cycle(same)]
    fn partner(
        &self,
        budget: &mut Budget,
        depth: usize,
        pairs: &mut Vec<Pair>,
        value: &Value<'_>,
        others: &[Value<'_>],
        left: &[usize],
    ) -> Result<Option<(usize, Truth)>, Stop> {
        let mut possible = None;
        for at in 0..left.len() {
            budget.take()?;
            if let Some(other) = others.get(left[at]) {
                match self.same_values(budget, depth, pairs, value, other)? {
                    Truth::True => return Ok(Some((at, Truth::True))),
                    Truth::Unknown => {
                        if possible.is_none() {
                            possible = Some((at, Truth::Unknown));
                        }
                    }
                    Truth::False => {}
                }
            }
        }
        Ok(possible)
    }
}
