//! Whether a list names an instance twice.

ghost use Rattle.std.specs.Prelude.{◌≡◌, ◌↔◌, true, IsTrue, IfOk};
ghost use Rattle.std.specs.List.Sorted.{IsNonDecreasing};
ghost use Rattle.p21_express.specs.WellFormed.{IsIn};
ghost use Rattle.p21_tree.specs.Plain.{plain};
ghost use Rattle.p21_check.specs.Repeats.{name_in, HasTwice};
ghost use Rattle.p21_check.specs.RepeatedNames.{names_of, IsAbove};

use p21_tree::Param;
use std::alloc::{AllocError, Global};

/// How many elements a list has at most whose names are compared each with each, without a copy.
const FEW: usize = 16;

/// Whether two elements are one instance name. Other elements are not compared.
///
/// Names that rise are looked at once. Others are copied and sorted: n * log n steps for n names, in whatever order they stand. Where
/// there is no memory for the copy, each is compared with those after it: n * n / 2 steps.
pub(crate) fn repeats_name(alloc: Global, elements: &[Param<'_>]) -> bool
    ensures { IsTrue result ↔ HasTwice (names_of elements.now) }
{
    // Most lists name instances in the order of their names.
    if rises(elements) {
        return false;
    }
    if elements.len() <= FEW {
        return repeats_among(elements);
    }
    match names_among(alloc, elements) {
        Ok(mut names) => repeats_when_sorted(names.as_mut_slice()),
        Err(AllocError) => repeats_among(elements),
    }
}

/// The instance name that an element is.
fn name_of(element: &Param<'_>) -> Option<u64>
    ensures { result ≡ name_in (plain element.now) }
{
    match element {
        Param::Ref(name) => Some(*name),
        _ => None,
    }
}

/// Whether each name is greater than the one before it.
fn rises(elements: &[Param<'_>]) -> bool
    ensures { result ≡ true → ¬ (HasTwice (names_of elements.now)) }
{
    let mut last = None;
    for element in elements {
        if let Some(name) = name_of(element) {
            if !is_above(last, name) {
                return false;
            }
            last = Some(name);
        }
    }
    true
}

fn is_above(last: Option<u64>, name: u64) -> bool
    ensures { IsTrue result ↔ IsAbove last name }
{
    match last {
        Some(last) => last < name,
        None => true,
    }
}

/// Whether one of the names stands again after itself.
fn repeats_among(elements: &[Param<'_>]) -> bool
    ensures { IsTrue result ↔ HasTwice (names_of elements.now) }
{
    for (position, element) in elements.iter().enumerate() {
        if let Some(name) = name_of(element) {
            if is_among(&elements[position + 1..], name) {
                return true;
            }
        }
    }
    false
}

/// Whether one of the elements is this name.
fn is_among(elements: &[Param<'_>], name: u64) -> bool
    ensures { IsTrue result ↔ IsIn (names_of elements.now) name }
{
    for element in elements {
        if let Some(other) = name_of(element) {
            if other == name {
                return true;
            }
        }
    }
    false
}

/// The instance names among some elements.
fn names_among(alloc: Global, elements: &[Param<'_>]) -> Result<Vec<u64>, AllocError>
    ensures { IfOk result (λ names. names.items ≡ names_of elements.now) }
{
    let mut names = Vec::with_capacity(alloc, elements.len())?;
    for element in elements {
        if let Some(name) = name_of(element) {
            names.push(name)?;
        }
    }
    Ok(names)
}

/// Whether one of these names stands twice. They are sorted.
fn repeats_when_sorted(names: &mut [u64]) -> bool
    ensures { IsTrue result ↔ HasTwice names.old }
{
    names.sort_unstable();
    has_equal_neighbors(names)
}

/// Whether a name stands twice among names that do not fall.
fn has_equal_neighbors(names: &[u64]) -> bool
    requires { IsNonDecreasing names.now }
    ensures { IsTrue result ↔ HasTwice names.now }
{
    for next in 1..names.len() {
        if names[next - 1] == names[next] {
            return true;
        }
    }
    false
}
