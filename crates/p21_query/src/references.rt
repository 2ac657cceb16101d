//! Instances by what they refer to.

ghost use Rattle.std.specs.Prelude.{◌≡◌, ◌↔◌, IsTrue};
ghost use Rattle.p21_tree.specs.declared.instances.RawInstance.{RawInstance};
ghost use Rattle.p21_tree.specs.Plain.{plain, plain_all};
ghost use Rattle.p21_tree.specs.Views.{plain_instance};
ghost use Rattle.p21_query.specs.First.{IsFirst};
ghost use Rattle.p21_query.specs.Names.{AnyHasName, HasName, HasNameIn};

use p21_tree::{Param, RawInstance};

/// The place of the first instance, from a place on, with a parameter that refers to the instance of this name. `None` where there is none.
pub fn next_naming(instances: &[RawInstance<'_>], name: u64, from: usize) -> Option<usize>
    // However deep the reference is in the parameter.
    ensures { IsFirst (λ i. AnyHasName name (plain_instance i).records) (λ i. ¬ (AnyHasName name (plain_instance i).records)) instances.now from result }
{
    for place in from..instances.len() {
        if is_naming(&instances[place], name) {
            return Some(place);
        }
    }
    None
}

/// Whether a parameter of the instance refers to this name.
fn is_naming(instance: &RawInstance<'_>, name: u64) -> bool
    ensures { IsTrue result ↔ AnyHasName name (plain_instance instance.now).records }
{
    for record in instance.records.as_slice() {
        if has_name(record.params.as_slice(), name) {
            return true;
        }
    }
    false
}

/// Whether one of the parameters is this name, or has it in it.
#[cycle(name)]
fn has_name(params: &[Param<'_>], name: u64) -> bool
    ensures { IsTrue result ↔ HasNameIn name (plain_all params.now) }
{
    for param in params {
        if is_or_has_name(param, name) {
            return true;
        }
    }
    false
}

/// Whether a parameter is this name, or has it in it.
#[cycle(name)]
fn is_or_has_name(param: &Param<'_>, name: u64) -> bool
    ensures { IsTrue result ↔ HasName name (plain param.now) }
{
    match param {
        Param::Ref(number) => *number == name,
        Param::Items(items) => has_name(items.as_slice(), name),
        Param::Typed(_, inner) => is_or_has_name(inner, name),
        Param::Absent => false,
        Param::Derived => false,
        Param::Int(_) => false,
        Param::Real(_) => false,
        Param::Str(_) => false,
        Param::Enumeration(_) => false,
        Param::Binary(_) => false,
    }
}
