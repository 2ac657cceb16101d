//! Which functions are not evaluated since they call others that are not.

ghost use Rattle.std.specs.Prelude.{◌≡◌, length, IfOk};

use crate::algorithms::ResolvedFunction;
use crate::obstacle::{Halt, Obstacle, Reason, settled};
use crate::scope::Call;
use p21_evaluate::Function;
use std::alloc::{AllocError, Global};

/// A function of a program, why it is not evaluated, where it is not, and what it calls.
#[derive(Drop)]
pub(crate) struct Entry<'a> {
    function: Function<'a>,
    obstacle: Option<Obstacle>,
    calls: Vec<Call>,
}

/// The functions of a program, in order.
#[derive(Drop)]
pub(crate) struct Functions<'a> {
    entries: Vec<Entry<'a>>,
}

/// The same in two lists.
#[derive(Drop)]
pub(crate) struct Evaluated<'a> {
    pub(crate) functions: Vec<Function<'a>>,
    pub(crate) obstacles: Vec<Option<Obstacle>>,
}

impl<'a> Functions<'a> {
    pub(crate) fn new(alloc: Global) -> Functions<'a> {
        Functions {
            entries: Vec::new(alloc),
        }
    }

    /// A further function, which does nothing where something is in its way.
    pub(crate) fn add(
        &mut self,
        alloc: Global,
        resolved: Result<ResolvedFunction<'a>, Halt>,
    ) -> Result<usize, AllocError> {
        let place = self.entries.len();
        let entry = match settled(resolved)? {
            Ok(ResolvedFunction { function, calls }) => Entry {
                function,
                obstacle: None,
                calls,
            },
            Err(obstacle) => Entry {
                function: Function {
                    locals: 0,
                    body: Vec::new(alloc),
                },
                obstacle: Some(obstacle),
                calls: Vec::new(alloc),
            },
        };
        self.entries.push(entry)?;
        Ok(place)
    }

    /// What is in the way of a function.
    fn obstacle(&self, function: usize) -> Option<Obstacle> {
        match self.entries.get(function) {
            Some(entry) => entry.obstacle,
            None => None,
        }
    }

    /// The first call of a function that is not evaluated.
    pub(crate) fn first_in_the_way(&self, calls: &[Call]) -> Option<Obstacle> {
        for call in calls {
            if self.obstacle(call.function).is_some() {
                return Some(Obstacle {
                    reason: Reason::Calls(call.function),
                    place: call.place,
                });
            }
        }
        None
    }

    /// Tells of the functions that call such.
    pub(crate) fn settle(&mut self, alloc: Global) -> Result<(), AllocError> {
        let callers = self.callers(alloc)?;
        let mut pending = self.in_the_way(alloc)?;
        for _function in 0..self.entries.len() {
            let Some(function) = pending.pop() else {
                break;
            };
            if let Some(callers) = callers.get(function) {
                self.reach(&mut pending, function, callers)?;
            }
        }
        self.name_first();
        Ok(())
    }

    /// Which functions call each function, and where.
    fn callers(&self, alloc: Global) -> Result<Vec<Vec<Call>>, AllocError> {
        let mut callers: Vec<Vec<Call>> = Vec::new(alloc);
        for _entry in &self.entries {
            callers.push(Vec::new(alloc))?;
        }
        for place in 0..self.entries.len() {
            add_caller(&mut callers, place, &self.entries[place].calls)?;
        }
        Ok(callers)
    }

    /// The functions that are not evaluated.
    fn in_the_way(&self, alloc: Global) -> Result<Vec<usize>, AllocError> {
        let mut places = Vec::new(alloc);
        for place in 0..self.entries.len() {
            if self.obstacle(place).is_some() {
                places.push(place)?;
            }
        }
        Ok(places)
    }

    /// Tells of those that call a function that is not evaluated.
    fn reach(
        &mut self,
        pending: &mut Vec<usize>,
        function: usize,
        callers: &[Call],
    ) -> Result<(), AllocError> {
        for caller in callers {
            if self.obstacle(caller.function).is_none() {
                pending.push(caller.function)?;
                self.tell(
                    caller.function,
                    Some(Obstacle {
                        reason: Reason::Calls(function),
                        place: caller.place,
                    }),
                );
            }
        }
        Ok(())
    }

    fn tell(&mut self, function: usize, obstacle: Option<Obstacle>) {
        if let Some(entry) = self.entries.get_mut(function) {
            entry.obstacle = obstacle;
        }
    }

    /// Tells of each that calls such the first of these calls.
    fn name_first(&mut self) {
        for place in 0..self.entries.len() {
            let first = self.first_call(place);
            if first.is_some() {
                self.tell(place, first);
            }
        }
    }

    /// The first call of a function that is not evaluated, where a function is not evaluated since it calls such.
    fn first_call(&self, function: usize) -> Option<Obstacle> {
        let entry = self.entries.get(function)?;
        match entry.obstacle?.reason {
            Reason::Calls(_) => self.first_in_the_way(&entry.calls),
            _ => None,
        }
    }

    /// The functions, and of each what is in its way.
    pub(crate) fn evaluated(self, alloc: Global) -> Result<Evaluated<'a>, AllocError>
        ensures { IfOk result (λ r. length r.functions.items ≡ length r.obstacles.items) }
    {
        let mut functions = Vec::new(alloc);
        let mut obstacles = Vec::new(alloc);
        let Functions { entries } = self;
        for entry in entries {
            let Entry {
                function,
                obstacle,
                calls: _,
            } = entry;
            functions.push(function)?;
            obstacles.push(obstacle)?;
        }
        Ok(Evaluated {
            functions,
            obstacles,
        })
    }
}

/// Notes the function at a place as one that calls others.
fn add_caller(
    callers: &mut Vec<Vec<Call>>,
    place: usize,
    calls: &[Call],
) -> Result<(), AllocError> {
    for call in calls {
        if let Some(callers) = callers.get_mut(call.function) {
            callers.push(Call {
                function: place,
                place: call.place,
            })?;
        }
    }
    Ok(())
}
