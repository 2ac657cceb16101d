//! How many elements a LIST, SET or BAG may have, and an ARRAY must have.

ghost use Rattle.std.specs.Prelude.{◌↔◌, IsTrue};
ghost use Rattle.p21_check.specs.Conforms.{IsWithin, IsSpan};

use p21_schema::Bounds;

/// Whether a number of elements is not below the low bound and not above the high one.
pub(crate) fn is_within(bounds: Bounds, count: usize) -> bool
    ensures { IsTrue result ↔ IsWithin bounds count }
{
    let count = count as i128;
    bounds.low.is_none_or(|low| i128::from(low) <= count)
        && bounds.high.is_none_or(|high| count <= i128::from(high))
}

/// Whether a number of elements is that of the indices from the low bound to the high one.
pub(crate) fn is_span(bounds: Bounds, count: usize) -> bool
    ensures { IsTrue result ↔ IsSpan bounds.low bounds.high count }
{
    match (bounds.low, bounds.high) {
        (Some(low), Some(high)) => i128::from(low) + count as i128 == i128::from(high) + 1,
        _ => true,
    }
}
