//! What names mean at a place of the text.

use crate::obstacle::{Halt, Reason};
use p21_algorithm::TypeTree;
use std::alloc::{AllocError, Global};

/// The most terms that may stand within one another.
pub(crate) const DEEPEST: usize = 500;

/// What resolving one function, rule or attribute may cost. A term costs 1, and a name, a string and a number also what there is to read of it.
const BUDGET: usize = 1_000_000;

/// A variable, parameter, element of a QUERY or population.
#[derive(Clone, Copy)]
pub(crate) struct Variable<'a, 't> {
    pub(crate) name: &'a [u8],
    pub(crate) slot: usize,
    /// What it is declared of.
    pub(crate) of: Option<&'t TypeTree<'a>>,
}

/// A function that is called, by its place among the functions, and where.
#[derive(Clone, Copy)]
pub(crate) struct Call {
    pub(crate) function: usize,
    pub(crate) place: usize,
}

/// What names mean at a place of the text.
#[derive(Drop)]
pub(crate) struct Scope<'a, 't> {
    /// The place of the entity in which it stands.
    pub(crate) entity: Option<usize>,
    /// Whether the first variable is SELF.
    pub(crate) has_self: bool,
    /// Where what is resolved begins.
    pub(crate) place: usize,
    /// A later one hides an earlier one of its name.
    pub(crate) variables: Vec<Variable<'a, 't>>,
    /// How many slots there are: behind them stands the element of a QUERY.
    pub(crate) slots: usize,
    /// The slot of the next REPEAT.
    pub(crate) next: usize,
    /// What the function's result is declared of.
    pub(crate) result: Option<&'t TypeTree<'a>>,
    /// The functions that were called.
    pub(crate) calls: Vec<Call>,
    /// What may be spent yet.
    budget: usize,
}

impl<'a, 't> Scope<'a, 't> {
    /// The scope of what stands at a place, in which SELF is the only variable, of that entity where one is given.
    pub(crate) fn of_self(alloc: Global, place: usize, entity: Option<usize>) -> Scope<'a, 't> {
        Scope {
            entity,
            has_self: true,
            place,
            variables: Vec::new(alloc),
            slots: 1,
            next: 1,
            result: None,
            calls: Vec::new(alloc),
            budget: BUDGET,
        }
    }

    /// The scope of what stands at a place, without variables.
    pub(crate) fn empty(alloc: Global, place: usize) -> Scope<'a, 't> {
        Scope {
            entity: None,
            has_self: false,
            place,
            variables: Vec::new(alloc),
            slots: 0,
            next: 0,
            result: None,
            calls: Vec::new(alloc),
            budget: BUDGET,
        }
    }

    /// Takes what something costs.
    pub(crate) fn spend(&mut self, cost: usize) -> Result<(), Halt> {
        match self.budget.checked_sub(cost) {
            Some(budget) => {
                self.budget = budget;
                Ok(())
            }
            None => Err(Halt::told(Reason::TooLarge, self.place)),
        }
    }

    /// Takes what it costs to read so many bytes.
    pub(crate) fn spend_bytes(&mut self, count: usize) -> Result<(), Halt> {
        self.spend(count / 16)
    }

    /// Takes what it costs to look for a name among the variables.
    pub(crate) fn spend_name(&mut self, name: &[u8]) -> Result<(), Halt> {
        self.spend_bytes(name.len())?;
        let cost = self.variables.len() / 8;
        self.spend(cost)
    }

    /// The variable of a name.
    pub(crate) fn variable(&self, name: &[u8]) -> Option<Variable<'a, 't>> {
        let mut found = None;
        for variable in &self.variables {
            if variable.name == name {
                found = Some(*variable);
            }
        }
        found
    }

    /// The slot of SELF.
    pub(crate) fn itself(&self) -> Result<usize, Halt> {
        if self.has_self {
            Ok(0)
        } else {
            Err(Halt::told(Reason::UnknownName, self.place))
        }
    }

    /// Declares a variable, at the next slot.
    pub(crate) fn declare(
        &mut self,
        name: &'a [u8],
        of: Option<&'t TypeTree<'a>>,
    ) -> Result<usize, AllocError> {
        let slot = self.next;
        self.variables.push(Variable { name, slot, of })?;
        self.next = slot.saturating_add(1);
        Ok(slot)
    }

    /// Declares the element of a QUERY, behind all slots.
    pub(crate) fn enter(&mut self, name: &'a [u8]) -> Result<(), AllocError> {
        let slot = self.slots;
        self.variables.push(Variable {
            name,
            slot,
            of: None,
        })?;
        self.slots = slot.saturating_add(1);
        Ok(())
    }

    /// Takes back the element that was declared last.
    pub(crate) fn leave(&mut self) {
        let _ = self.variables.pop();
        self.slots = self.slots.saturating_sub(1);
    }

    /// Takes back a name that was declared last. Its slot stays.
    pub(crate) fn forget(&mut self) {
        let _ = self.variables.pop();
    }

    /// Notes a call.
    pub(crate) fn called(&mut self, function: usize, place: usize) -> Result<(), AllocError> {
        self.calls.push(Call { function, place })?;
        Ok(())
    }
}
