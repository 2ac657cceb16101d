//! The rules of defined types over the values of an instance.

use crate::concerns::{is_of, leads_to_rules, type_under};
use crate::findings::{Findings, OfInstance, Outcome};
use crate::instances::{Run, outcome_over};
use p21_schema::{Resolved, ResolvedExpr, Target};
use p21_values::{Budget, Stop, Value};
use std::alloc::AllocError;

/// How deep aggregates and defined types may be nested in a value; those of a file are so by fewer.
const DEEPEST: usize = 300;

/// What was found, where memory does not run out.
fn unless_full<T: Drop>(found: Result<T, Stop>) -> Result<Option<T>, AllocError> {
    match found {
        Ok(found) => Ok(Some(found)),
        Err(Stop::Memory) => Err(AllocError),
        Err(_) => Ok(None),
    }
}

/// What stands behind a type.
#[derive(Clone, Copy)]
enum Further<'r> {
    Nothing,
    /// The type at this place.
    Type(usize),
    /// A type that is no defined one.
    Plain(&'r ResolvedExpr),
}

impl<'r, 'p: 'r, 'a> Run<'r, 'p, 'a> {
    /// Notes what the rules of types find of the values of an instance.
    pub(crate) fn add_types(
        &self,
        number: u32,
        entities: &[u32],
        own: &mut OfInstance,
        findings: &mut Findings,
    ) -> Result<(), AllocError> {
        for entity in entities {
            if let Some(row) = self.concerns.rows.get(*entity as usize) {
                for attribute in row {
                    self.add_attribute(number, *attribute, own, findings)?;
                }
            }
        }
        Ok(())
    }

    /// Notes what they find of the value of an explicit attribute.
    fn add_attribute(
        &self,
        number: u32,
        attribute: usize,
        own: &mut OfInstance,
        findings: &mut Findings,
    ) -> Result<(), AllocError> {
        let mut budget = Budget::new(self.alloc, self.limits.steps);
        let declared = self.world.declared_type(&mut budget, number, attribute);
        let Some(Some(texpr)) = unless_full(declared)? else {
            return Ok(());
        };
        if !leads_to_rules(&self.concerns.has_rules, texpr) {
            return Ok(());
        }
        match self.world.value_of(&mut budget, number, attribute) {
            Ok(value) => self.add_value(DEEPEST, texpr, &value, own, findings),
            Err(Stop::Memory) => Err(AllocError),
            Err(why) => self.add_undecided(texpr, why, own),
        }
    }

    /// Notes that the rules of a type and of those under it are not decided.
    fn add_undecided(
        &self,
        texpr: &ResolvedExpr,
        why: Stop,
        own: &mut OfInstance,
    ) -> Result<(), AllocError> {
        if let ResolvedExpr::Named(Target::Defined(defined)) = texpr {
            if let Some(rules) = self.concerns.by_type.get(defined.place()) {
                for rule in rules {
                    own.note(*rule, Outcome::NotDecided(why))?;
                }
            }
        }
        Ok(())
    }

    /// Notes what the rules find of a value that is declared of a type. At most so many aggregates are nested.
    #[cycle(types)]
    fn add_value(
        &self,
        depth: usize,
        texpr: &ResolvedExpr,
        value: &Value<'r>,
        own: &mut OfInstance,
        findings: &mut Findings,
    ) -> Result<(), AllocError> {
        if depth == 0 {
            return Ok(());
        }
        match texpr {
            ResolvedExpr::Array { item, .. }
            | ResolvedExpr::List { item, .. }
            | ResolvedExpr::Set { item, .. }
            | ResolvedExpr::Bag { item, .. } => {
                self.add_elements(depth - 1, item, value.bare(), own, findings)
            }
            ResolvedExpr::Named(Target::Defined(defined)) => {
                self.add_defined(depth - 1, defined.place(), value, own, findings)
            }
            _ => Ok(()),
        }
    }

    /// Notes what they find of the elements of an aggregate.
    #[cycle(types)]
    fn add_elements(
        &self,
        depth: usize,
        item: &ResolvedExpr,
        value: &Value<'r>,
        own: &mut OfInstance,
        findings: &mut Findings,
    ) -> Result<(), AllocError> {
        if let Value::Aggregate(_, values) = value {
            for element in values.as_slice() {
                self.add_value(depth, item, element, own, findings)?;
            }
        }
        Ok(())
    }

    /// Notes what they find of a value of a defined type, and of those whose names or whose SELECTs lead on from it.
    #[cycle(types)]
    fn add_defined(
        &self,
        depth: usize,
        defined: usize,
        value: &Value<'r>,
        own: &mut OfInstance,
        findings: &mut Findings,
    ) -> Result<(), AllocError> {
        if let Value::Indeterminate = value {
            return Ok(());
        }
        let mut place = defined;
        for _type in 0..self.concerns.has_rules.len() {
            if self.concerns.has_rules.get(place) != Some(&true) {
                return Ok(());
            }
            self.run_type_rules(place, value, own, findings)?;
            match self.further(place, value) {
                Further::Nothing => return Ok(()),
                Further::Type(next) => place = next,
                Further::Plain(texpr) => return self.add_value(depth, texpr, value, own, findings),
            }
        }
        Ok(())
    }

    /// Notes what the rules of a type find of a value.
    fn run_type_rules(
        &self,
        defined: usize,
        value: &Value<'r>,
        own: &mut OfInstance,
        findings: &mut Findings,
    ) -> Result<(), AllocError> {
        if let Some(rules) = self.concerns.by_type.get(defined) {
            for rule in rules {
                findings.evaluations = findings.evaluations.saturating_add(1);
                own.note(*rule, outcome_over(self, *rule, value.share()?)?)?;
            }
        }
        Ok(())
    }

    /// What further rules a value has to keep behind those of a type.
    fn further(&self, defined: usize, value: &Value<'r>) -> Further<'r> {
        if let Some(next) = type_under(self.schema, defined) {
            return Further::Type(next);
        }
        let Some(id) = self.schema.type_at(defined) else {
            return Further::Nothing;
        };
        match self.schema.under(id) {
            Resolved::Items(_) => Further::Nothing,
            Resolved::Plain(texpr) => Further::Plain(texpr),
            Resolved::Select(targets) => match self.member_of(targets, value) {
                Some(member) => Further::Type(member),
                None => Further::Nothing,
            },
        }
    }

    /// Of the items of a SELECT the place of the type that a value is of: its own, or the first SELECT that has that. An instance of an entity in the list is of no
    /// type.
    fn member_of(&self, targets: &[Target], value: &Value<'r>) -> Option<usize> {
        let of = own_type(value);
        for target in targets {
            match *target {
                Target::Defined(defined) => {
                    if of == Some(defined.place()) {
                        return of;
                    }
                }
                Target::Entity(entity) => {
                    if self.is_entity(value, entity.place()) {
                        return None;
                    }
                }
            }
        }
        self.select_of(targets, of, value)
    }

    /// The place of the first SELECT of some items that leads to the type or the entities of a value.
    fn select_of(&self, targets: &[Target], of: Option<usize>, value: &Value<'r>) -> Option<usize> {
        for target in targets {
            if let Target::Defined(defined) = *target {
                if self.leads_to(defined.place(), of, value) {
                    return Some(defined.place());
                }
            }
        }
        None
    }

    /// Whether a value is an instance of the file of an entity.
    fn is_entity(&self, value: &Value<'r>, entity: usize) -> bool {
        match value.bare() {
            Value::Instance(place) => { is_of(self.schema, self.world.entities_of(*place), entity) }
            _ => false,
        }
    }

    /// Whether a type is a SELECT that leads to the type or the entities of a value.
    fn leads_to(&self, place: usize, of: Option<usize>, value: &Value<'r>) -> bool {
        let Some(select) = self.schema.type_at(place) else {
            return false;
        };
        if let Value::Instance(instance) = value.bare() {
            for own in self.world.entities_of(*instance) {
                if let Some(own) = self.schema.entity_at(*own as usize) {
                    if self.schema.select_admits(select, own) {
                        return true;
                    }
                }
            }
            return false;
        }
        match of {
            Some(of) => match self.schema.declared().types.get(of) {
                Some(declared) => self.schema.select_has(select, &declared.name).is_some(),
                None => false,
            },
            None => false,
        }
    }
}

/// The place of the type that a value is of by its name, or of the enumeration of an item.
fn own_type(value: &Value<'_>) -> Option<usize> {
    match value {
        Value::Typed(defined, _) => Some(*defined as usize),
        Value::Enumerated(item) => Some(item.place?.enumeration as usize),
        _ => None,
    }
}
