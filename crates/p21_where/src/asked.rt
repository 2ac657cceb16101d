//! The instances of a file as a world that evaluations ask.
//!
//! Nothing is claimed yet of what it answers: that is tested. So `known` holds of no such world, and its other ghosts say nothing.

ghost use Rattle.p21_values.specs.Ends.{not_computed};
ghost use Rattle.p21_values.specs.declared.truth.Truth.TheVariants.{Unknown as unknown};

use p21_evaluate::{Construction, Question, Reply, World};
use p21_values::{Budget, Instances, Stop, Truth, Value};
use p21_world::{Answer, FileWorld};

/// The instances of a file as a world that evaluations ask.
#[derive(Clone, Copy)]
pub(crate) struct Asked<'x, 'a> {
    pub(crate) world: &'x FileWorld<'x, 'a>,
}

impl<'x, 'a> Instances for Asked<'x, 'a> {
    ghost known = { λ _. ⊥ };

    ghost same = { λ _ _ _. unknown };

    fn same(&self, first: u32, second: u32, budget: &mut Budget) -> Result<Truth, Stop> {
        match self.world.same_by_attributes(budget, first, second) {
            Ok(truth) => Ok(truth),
            Err(Stop::Memory) => Err(Stop::Memory),
            Err(Stop::Limit) => Err(Stop::Limit),
            Err(_) => Err(Stop::NotCompared),
        }
    }
}

/// What is answered.
fn reply<'w>(answer: Answer<'w>) -> Reply<'w> {
    match answer {
        Answer::Value(value) => Reply::Value(value),
        Answer::Call(function) => Reply::Call(function),
    }
}

/// A truth that is answered.
fn told<'w>(truth: Truth) -> Reply<'w> {
    Reply::Value(Value::Logical(truth))
}

impl<'x, 'a> World for Asked<'x, 'a> {
    ghost replied = { λ _ _ _. not_computed };

    ghost made = { λ _ _ _. not_computed };

    fn ask<'w>(
        &'w self,
        budget: &mut Budget,
        question: Question,
        of: &Value<'w>,
    ) -> Result<Reply<'w>, Stop> {
        let world = self.world;
        match question {
            Question::Attribute(name) => {
                Ok(reply(world.attribute(budget, of.bare(), None, name)?))
            }
            Question::AttributeOf(entity, name) => {
                Ok(reply(world.attribute(budget, of.bare(), Some(entity), name)?))
            }
            Question::Group(entity) => Ok(Reply::Value(world.group(of, entity)?)),
            Question::IsEntity(entity) => Ok(told(Truth::of(world.is_entity(of.bare(), entity)))),
            Question::IsExactly(entity) => Ok(told(world.is_exactly(of.bare(), entity))),
            Question::Types => Ok(Reply::Value(world.types(budget, of)?)),
            Question::Users(number) => Ok(Reply::Value(world.users(budget, of.bare(), number)?)),
        }
    }

    fn make<'w>(
        &'w self,
        budget: &mut Budget,
        construction: Construction,
        values: Vec<Value<'w>>,
    ) -> Result<Value<'w>, Stop> {
        let world = self.world;
        match construction {
            Construction::Instance(entity) => world.constructed(budget, entity, values),
            Construction::Joined => world.joined(budget, &values),
            Construction::WithAttribute(name) => world.with_attribute(budget, name, &values),
            Construction::Typed(number) => world.typed(budget, number, &values),
            Construction::Population(entity) => world.population(budget, entity),
        }
    }
}
