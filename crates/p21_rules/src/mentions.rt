//! The instances to which a parameter refers.

ghost use Rattle.std.specs.Prelude.{◌≡◌, ◌++◌, OnOk};
ghost use Rattle.p21_tree.specs.Plain.{plain};
ghost use Rattle.p21_rules.specs.Mentions.{mentions};

use p21_tree::Param;
use std::alloc::AllocError;

/// Adds the instance names in a parameter, in their order.
pub(crate) fn push_mentions(names: &mut Vec<u64>, param: &Param<'_>) -> Result<(), AllocError>
    ensures { OnOk result (names.new.items ≡ names.old.items ++ mentions (plain param.now)) }
{
    match param {
        Param::Ref(name) => {
            names.push(*name)?;
            Ok(())
        }
        Param::Items(items) => {
            for item in items {
                push_mentions(names, item)?;
            }
            Ok(())
        }
        Param::Typed(_, inner) => push_mentions(names, inner),
        Param::Absent => Ok(()),
        Param::Derived => Ok(()),
        Param::Int(_) => Ok(()),
        Param::Real(_) => Ok(()),
        Param::Str(_) => Ok(()),
        Param::Enumeration(_) => Ok(()),
        Param::Binary(_) => Ok(()),
    }
}
