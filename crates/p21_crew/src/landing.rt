//! Ending all lanes and joining their threads.
ghost use Rattle.std.specs.Prelude.{◌≡◌, [], ◌∷◌, ◌++◌, IfOk, IsTrue};
ghost use Rattle.p21_crew.specs.Landing.{AreLanded};

use crate::flight::{Flight, Landed};
use crate::returned::Returned;
use crate::work::Work;
use p21_lanes::Receipt;
use std::alloc::{AllocError, Global};
use std::sync::Wait;
use std::thread::Threads;

/// The receipts of all lanes, by their numbers.
#[derive(Drop)]
pub(crate) struct Receipts<P, O> {
    /// What each lane received.
    pub(crate) receipts: Vec<Receipt<P>>,
    /// What each lane returned.
    pub(crate) returned: Vec<Receipt<Returned<O>>>,
}

impl<P: Drop, O: Drop> Receipts<P, O> {
    ghost use Rattle.std.specs.Prelude.{◌≡◌, [], ◌∷◌, ◌++◌, true, IsTrue};

    fn new(alloc: Global) -> Receipts<P, O>
        ensures { (result.receipts.items ≡ []) × (result.returned.items ≡ []) }
    {
        Receipts {
            receipts: Vec::new(alloc),
            returned: Vec::new(alloc),
        }
    }

    /// Puts the receipts of one more lane after the others. The answer is whether all are there, and the
    /// dealer had taken each result.
    fn keep(&mut self, landed: Landed<P, O>, is_whole: bool) -> bool
        ensures clean { IsTrue result → landed.is_clean ≡ true }
        ensures whole { IsTrue result → is_whole ≡ true }
        ensures receipts { IsTrue result → self.new.receipts.items ≡ self.old.receipts.items ++ landed.receipt ∷ [] }
        ensures returned { IsTrue result → self.new.returned.items ≡ self.old.returned.items ++ landed.returned ∷ [] }
    {
        let Landed {
            receipt,
            returned,
            is_clean,
        } = landed;
        let keeps_receipt = push_whole(&mut self.receipts, receipt);
        let keeps_returned = push_whole(&mut self.returned, returned);
        keeps_receipt && keeps_returned && is_clean && is_whole
    }
}

/// Puts an item after the others. The answer is whether it is there.
fn push_whole<T: Drop>(items: &mut Vec<T>, item: T) -> bool
    ensures { IsTrue result → items.new.items ≡ items.old.items ++ item ∷ [] }
{
    items.push(item).is_ok()
}

/// Lands all lanes. An error means that memory was refused, or that the dealer had not taken each result; the lanes are landed
/// all the same.
pub(crate) fn land_all<P: Drop, O: Drop, W: Work<P, Out = O>, R: Threads + Wait>(
    rt: &R,
    alloc: Global,
    flights: Vec<Flight<P, O, W>>,
) -> Result<Receipts<P, O>, AllocError>
    ensures { IfOk result (λ all. AreLanded W.stated flights.items all.receipts.items all.returned.items) }
{
    let mut all = Receipts::new(alloc);
    let mut is_whole = true;
    let mut left = flights.into_iter();
    while let Some(flight) = left.next() {
        let landed = flight.land(rt);
        is_whole = all.keep(landed, is_whole);
    }
    left.destroy_empty();
    if is_whole { Ok(all) } else { Err(AllocError) }
}
