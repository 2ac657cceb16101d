//! Lanes by hand, in one thread and in two.
ghost use Rattle.std.specs.Prelude.{IfOk};
ghost use Rattle.p21_lanes.specs.Lane.{IsLane};
ghost use Rattle.p21_lanes.specs.LaneIn.{SameIn};
ghost use Rattle.p21_lanes.specs.LaneOut.{SameOut};

use p21_lanes::{Capacity, Full, LaneIn, LaneOut, Pair, Taken, lane, settle};
use std::alloc::{AllocError, Global};
use std::rc::Rc;
use std::sync::Wait;
use std::test::Fail;
use std::thread;

fn lane_of<T: Drop>(alloc: Global, capacity: u32) -> Result<(LaneIn<T>, LaneOut<T>), Fail>
    ensures { IfOk result (λ ends. IsLane ends.0 ends.1) }
{
    let capacity = Capacity::new(capacity).ok_or("a capacity is 1 to 4096")?;
    Ok(lane(alloc, capacity)?)
}

#[test]
fn capacities(rt: HostRuntime) {
    for (n, is_one) in [(0, false), (1, true), (4096, true), (4097, false)] {
        assert_eq!(rt; Capacity::new(n).is_some(), is_one, "at {n}");
        assert_eq!(rt;
            Capacity::new(n).is_none_or(|capacity| capacity.get() == n),
            true,
            "at {n}"
        );
    }
}

#[test]
fn lane_of_two_places(rt: HostRuntime) -> Result<(), Fail> {
    let (mut lane_in, mut lane_out) = lane_of(rt.alloc(), 2)?;
    assert_eq!(rt; lane_in.offer(10), Ok(()));
    assert_eq!(rt; lane_in.offer(11), Ok(()));
    assert_eq!(rt; lane_in.offer(12), Err(12));
    assert_eq!(rt; lane_out.take(), Taken::Item(10));
    assert_eq!(rt; lane_out.take(), Taken::Item(11));
    assert_eq!(rt; lane_out.take(), Taken::Nothing);
    let Err(
        Pair {
            mut lane_in,
            lane_out,
        },
    ) = settle(lane_in, lane_out)
    else {
        panic!(rt; "settled before the end was sent");
    };
    assert_eq!(rt; lane_in.offer(12), Ok(()));
    assert!(rt; !lane_in.is_ended());
    assert_eq!(rt; lane_in.end(), Ok(()));
    assert!(rt; lane_in.is_ended());
    assert_eq!(rt; lane_in.end(), Ok(()));
    assert_eq!(rt; lane_in.offer(13), Err(13));
    let Err(
        Pair {
            lane_in,
            mut lane_out,
        },
    ) = settle(lane_in, lane_out)
    else {
        panic!(rt; "settled before the end was taken");
    };
    assert_eq!(rt; lane_out.take(), Taken::Item(12));
    assert_eq!(rt; lane_out.take(), Taken::Ended);
    assert_eq!(rt; lane_out.take(), Taken::Ended);
    let Ok(receipt) = settle(lane_in, lane_out) else {
        panic!(rt; "not settled");
    };
    assert_eq!(rt; receipt.count(), 3);
    Ok(())
}

#[test]
fn end_takes_a_place(rt: HostRuntime) -> Result<(), Fail> {
    let (mut lane_in, mut lane_out) = lane_of(rt.alloc(), 1)?;
    assert_eq!(rt; lane_in.offer(1), Ok(()));
    assert_eq!(rt; lane_in.end(), Err(Full));
    assert_eq!(rt; lane_out.take(), Taken::Item(1));
    assert_eq!(rt; lane_in.end(), Ok(()));
    Ok(())
}

#[test]
fn lane_that_is_ended_at_once(rt: HostRuntime) -> Result<(), Fail> {
    let (mut lane_in, mut lane_out) = lane_of::<u32>(rt.alloc(), 1)?;
    assert_eq!(rt; lane_in.end(), Ok(()));
    assert_eq!(rt; lane_out.take(), Taken::Ended);
    let Ok(receipt) = settle(lane_in, lane_out) else {
        panic!(rt; "not settled");
    };
    assert_eq!(rt; receipt.count(), 0);
    Ok(())
}

// Sends three items and the end, into a lane with room for them.
fn send_three(mut lane_in: LaneIn<u32>) -> (bool, LaneIn<u32>)
    ensures { SameIn lane_in result.1 }
{
    let sent = lane_in.offer(7).is_ok()
        && lane_in.offer(8).is_ok()
        && lane_in.offer(9).is_ok()
        && lane_in.end().is_ok();
    (sent, lane_in)
}

// Takes items until the end comes.
fn take_all(
    rt: &impl Wait,
    alloc: Global,
    mut lane_out: LaneOut<u32>,
) -> (Result<Vec<u32>, AllocError>, LaneOut<u32>)
    ensures { SameOut lane_out result.1 }
{
    let mut items = Ok(Vec::new(alloc));
    for _ in rt.forever() {
        match lane_out.take() {
            Taken::Item(item) => items = items.and_then(|all: Vec<u32>| with(all, item)),
            Taken::Ended => break,
            Taken::Nothing => thread::yield_now(),
        }
    }
    (items, lane_out)
}

fn with(mut items: Vec<u32>, item: u32) -> Result<Vec<u32>, AllocError> {
    items.push(item)?;
    Ok(items)
}

#[test]
fn lane_between_two_threads(rt: HostRuntime) -> Result<(), Fail> {
    let alloc = rt.alloc();
    let (lane_in, lane_out) = lane_of(alloc, 4096)?;
    // The second closure is the one that runs first where no thread can be made, and it does not wait.
    let ((items, lane_out), (sent, lane_in)) = thread::join(
        &rt,
        || -> (Result<Vec<u32>, AllocError>, LaneOut<u32>)
            ensures { SameOut lane_out result.1 }
        { take_all(&rt, alloc, lane_out) },
        move || -> (bool, LaneIn<u32>)
            ensures { SameIn lane_in result.1 }
        { send_three(lane_in) },
    );
    assert!(rt; sent);
    assert_eq!(rt; items?.as_slice(), [7, 8, 9].as_slice());
    let Ok(receipt) = settle(lane_in, lane_out) else {
        panic!(rt; "not settled");
    };
    assert_eq!(rt; receipt.count(), 3);
    Ok(())
}

#[test]
fn items_that_own_memory(rt: HostRuntime) -> Result<(), Fail> {
    let alloc = rt.alloc();
    let (mut lane_in, mut lane_out) = lane_of(alloc, 1)?;
    assert!(rt; lane_in.offer(vec![in alloc; 1, 2]?).is_ok());
    let Err(back) = lane_in.offer(vec![in alloc; 3]?) else {
        panic!(rt; "a second item found a place");
    };
    assert_eq!(rt; back.as_slice(), [3].as_slice());
    let Taken::Item(item) = lane_out.take() else {
        panic!(rt; "no item was taken");
    };
    assert_eq!(rt; item.as_slice(), [1, 2].as_slice());
    assert_eq!(rt; lane_in.end(), Ok(()));
    assert!(rt; matches!(lane_out.take(), Taken::Ended));
    let Ok(receipt) = settle(lane_in, lane_out) else {
        panic!(rt; "not settled");
    };
    assert_eq!(rt; receipt.count(), 1);
    Ok(())
}

#[test]
fn lane_let_go_with_items_in_it(rt: HostRuntime) -> Result<(), Fail> {
    let item = Rc::new(rt.alloc(), 5u8)?;
    for first_goes_out in [false, true] {
        let (mut lane_in, mut lane_out) = lane_of(rt.alloc(), 3)?;
        for _ in 0..3 {
            assert!(rt; lane_in.offer(item.clone()?).is_ok());
        }
        assert!(rt; matches!(lane_out.take(), Taken::Item(_)));
        assert_eq!(rt; Rc::strong_count(&item), 3);
        if first_goes_out {
            drop(lane_out);
            drop(lane_in);
        } else {
            drop(lane_in);
            drop(lane_out);
        }
        assert_eq!(rt; Rc::strong_count(&item), 1);
    }
    Ok(())
}

#[test]
fn list_in_one_place(rt: HostRuntime) -> Result<(), Fail> {
    let alloc = rt.alloc();
    let (mut lane_in, mut lane_out) = lane_of(alloc, 2)?;
    assert!(rt; lane_in.offer_all(vec![in alloc; 1, 2]?).is_ok());
    assert_eq!(rt; lane_in.offer(3), Ok(()));
    assert_eq!(rt; lane_out.ready(), 2);
    assert_eq!(rt; lane_out.take(), Taken::Item(1));
    assert_eq!(rt; lane_out.take(), Taken::Item(2));
    assert_eq!(rt; lane_out.take(), Taken::Item(3));
    assert_eq!(rt; lane_in.end(), Ok(()));
    assert_eq!(rt; lane_out.take(), Taken::Ended);
    let Ok(receipt) = settle(lane_in, lane_out) else {
        panic!(rt; "not settled");
    };
    assert_eq!(rt; receipt.count(), 3);
    Ok(())
}

#[test]
fn list_without_a_place(rt: HostRuntime) -> Result<(), Fail> {
    let alloc = rt.alloc();
    let (mut lane_in, _lane_out) = lane_of(alloc, 1)?;
    assert!(rt; lane_in.offer_all(vec![in alloc; 4]?).is_ok());
    assert!(rt; lane_in.offer_all(Vec::new(alloc)).is_ok());
    let Err(back) = lane_in.offer_all(vec![in alloc; 5, 6]?) else {
        panic!(rt; "a second list found a place");
    };
    assert_eq!(rt; back.as_slice(), [5, 6].as_slice());
    Ok(())
}

#[test]
fn list_let_go_where_one_of_it_was_taken(rt: HostRuntime) -> Result<(), Fail> {
    let item = Rc::new(rt.alloc(), 5u8)?;
    let (mut lane_in, mut lane_out) = lane_of(rt.alloc(), 1)?;
    let mut items = Vec::new(rt.alloc());
    for _ in 0..3 {
        items.push(item.clone()?)?;
    }
    assert!(rt; lane_in.offer_all(items).is_ok());
    assert!(rt; matches!(lane_out.take(), Taken::Item(_)));
    assert_eq!(rt; Rc::strong_count(&item), 3);
    drop(lane_out);
    assert_eq!(rt; Rc::strong_count(&item), 1);
    Ok(())
}

// Where a request for memory is refused, which `tests/refused_memory_of_libraries` does in turn, `lane` answers lack of memory; else the lane
// works, since no other call takes memory.
#[test]
fn memory_or_the_answer(rt: HostRuntime) -> Result<(), Fail> {
    let capacity = Capacity::new(2).ok_or("2 is a capacity")?;
    let Ok((mut lane_in, mut lane_out)) = lane(rt.alloc(), capacity) else {
        return Ok(());
    };
    assert_eq!(rt; lane_in.offer(10), Ok(()));
    assert_eq!(rt; lane_in.end(), Ok(()));
    assert_eq!(rt; lane_in.offer(11), Err(11));
    assert_eq!(rt; lane_out.take(), Taken::Item(10));
    assert_eq!(rt; lane_out.take(), Taken::Ended);
    let Ok(receipt) = settle(lane_in, lane_out) else {
        panic!(rt; "not settled");
    };
    assert_eq!(rt; receipt.count(), 1);
    Ok(())
}
