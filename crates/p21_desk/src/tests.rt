//! Dealing by example.

use crate::{Desk, LaneCount};
use p21_lanes::Capacity;
use std::alloc::AllocError;
use std::test::Fail;

#[test]
fn lane_counts(rt: HostRuntime) {
    for (n, is_one) in [(0, false), (1, true), (64, true), (65, false)] {
        assert_eq!(rt; LaneCount::new(n).is_some(), is_one, "at {n}");
        assert_eq!(rt;
            LaneCount::new(n).is_none_or(|lanes| lanes.get() == n),
            true,
            "at {n}"
        );
    }
}

/// What `deal` answers, where it may be called.
fn deal(desk: &mut Desk, lane: u32) -> Option<Result<u64, AllocError>> {
    if lane < desk.lanes().get() && desk.may_deal(lane) {
        Some(desk.deal(lane))
    } else {
        None
    }
}

/// How many pieces wait on a lane, where it is one of the desk.
fn waiting(desk: &Desk, lane: u32) -> Option<u64> {
    if lane < desk.lanes().get() {
        Some(desk.waiting(lane))
    } else {
        None
    }
}

/// Notes the next piece as joined, where there is one, and answers its lane.
fn join_next(desk: &mut Desk) -> Option<u32> {
    let lane = desk.next_lane()?;
    desk.joined();
    Some(lane)
}

#[test]
fn desk(rt: HostRuntime) -> Result<(), Fail> {
    let lanes = LaneCount::new(2).ok_or("2 is a number of lanes")?;
    let capacity = Capacity::new(1).ok_or("1 is a capacity")?;
    let mut desk = Desk::new(rt.alloc(), lanes, capacity)?;
    assert_eq!(rt; desk.lanes().get(), 2);
    assert_eq!(rt; join_next(&mut desk), None);
    assert_eq!(rt; deal(&mut desk, 0), Some(Ok(0)));
    assert_eq!(rt; deal(&mut desk, 0), None);
    assert_eq!(rt; deal(&mut desk, 1), Some(Ok(1)));
    assert_eq!(rt; desk.next_lane(), Some(0));
    assert_eq!(rt; join_next(&mut desk), Some(0));
    assert_eq!(rt; waiting(&desk, 0), Some(0));
    assert_eq!(rt; waiting(&desk, 1), Some(1));
    assert_eq!(rt; waiting(&desk, 2), None);
    assert_eq!(rt; desk.next_lane(), Some(1));
    assert_eq!(rt; join_next(&mut desk), Some(1));
    assert_eq!(rt; desk.next_lane(), None);
    assert_eq!(rt; desk.dealt(), [0, 1].as_slice());
    assert_eq!(rt; deal(&mut desk, 0), Some(Ok(2)));
    assert_eq!(rt; desk.into_dealt().as_slice(), [0, 1, 0].as_slice());
    Ok(())
}
