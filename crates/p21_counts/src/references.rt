//! Counting the instance names that are written as parameters.

ghost use Rattle.std.specs.Prelude.{◌≡◌, ◌^◌, ◌-◌};
ghost use Rattle.p21_counts.specs.Counts.{capped, record_references};
ghost use Rattle.p21_check.specs.References.{names_count};
ghost use Rattle.p21_tree.specs.Plain.{plain_all};
ghost use Rattle.p21_tree.specs.Views.{plain_instance, plain_record};

use p21_tree::{Param, RawInstance, Record};
use std::slice::from_ref;

/// How many instance names are written in an instance, at most 2^64 - 1.
pub fn references_in(instance: &RawInstance<'_>) -> u64
    ensures { result ≡ capped (record_references (plain_instance instance.now).records) }
{
    let mut sum: u64 = 0;
    for record in instance.records.as_slice() {
        sum = sum.saturating_add(in_record(record));
    }
    sum
}

/// How many are written in a record.
fn in_record(row: &Record<'_>) -> u64
    ensures { result ≡ capped (names_count (plain_record row.now).params) }
{
    in_list(row.params.as_slice())
}

/// How many are written in a list of parameters.
fn in_list(params: &[Param<'_>]) -> u64
    ensures { result ≡ capped (names_count (plain_all params.now)) }
{
    let mut sum: u64 = 0;
    for param in params {
        sum = sum.saturating_add(match param {
            Param::Ref(_) => 1,
            Param::Items(items) => in_list(items.as_slice()),
            Param::Typed(_, inner) => in_list(from_ref(inner)),
            _ => 0,
        });
    }
    sum
}
