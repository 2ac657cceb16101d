//! Further elements of lists.

use p21_values::Stop;

/// Adds an element.
pub(crate) fn push<T: Drop>(list: &mut Vec<T>, element: T) -> Result<(), Stop> {
    match list.push(element) {
        Ok(()) => Ok(()),
        Err(_full) => Err(Stop::Memory),
    }
}
