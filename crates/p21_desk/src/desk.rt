//! Which piece was dealt to which lane, and which comes next.
ghost use Rattle.std.specs.Prelude.{◌≡◌, ◌+◌, ◌-◌, ◌*◌, ◌<◌, ◌≤◌, ◌↔◌, All, [], ◌∷◌, ◌++◌, length, slice_get, IsTrue, IsSome, IfOk, OnOk, OnErr, IfSome, IfNone};
ghost use Rattle.p21_desk.specs.Dealt.{waiting_at};

use crate::lane_count::LaneCount;
use p21_lanes::Capacity;
use std::alloc::{AllocError, Global};
use std::marker::Model;

/// Which lane each piece was dealt to, and how many pieces were joined.
///
/// The pieces are numbered from 0 in the order in which they are dealt, and are joined in this order. A piece waits from
/// when it is dealt until it is joined, and on no lane do more pieces wait than the capacity.
#[derive(Drop)]
pub struct Desk {
    lanes: LaneCount,
    capacity: Capacity,
    /// The lane of each piece.
    dealt: Vec<u32>,
    joined: usize,
    /// How many pieces wait on each lane.
    waiting: Vec<u64>,
}

impl Model for Desk {
    ghost use Rattle.p21_desk.specs.Dealt.{Dealt};
    ghost use Rattle.p21_desk.specs.DeskFields.{IsKept};

    ghost Value = { Dealt };

    ghost view = { λ d. record { lanes = d.lanes; capacity = d.capacity; dealt = d.dealt.items; joined = d.joined } };

    ghost invariant = { λ d. IsKept d.lanes d.capacity d.dealt.items d.joined d.waiting.items };
}

impl Desk {
    /// A desk of so many lanes, on each of which as many pieces may wait as the capacity. Nothing is dealt and nothing
    /// joined. An error means that memory was refused.
    pub fn new(alloc: Global, lanes: LaneCount, capacity: Capacity) -> Result<Desk, AllocError>
        ensures { IfOk result (λ desk. desk ≡ record { lanes = lanes; capacity = capacity; dealt = []; joined = 0 }) }
    {
        Ok(Desk {
            lanes,
            capacity,
            dealt: Vec::new(alloc),
            joined: 0,
            waiting: vec![in alloc; 0; lanes.get() as usize]?,
        })
    }

    /// How many lanes there are.
    pub fn lanes(&self) -> LaneCount
        ensures { result ≡ self.now.lanes }
    {
        self.lanes
    }

    /// How many pieces may wait on one lane.
    pub fn capacity(&self) -> Capacity
        ensures { result ≡ self.now.capacity }
    {
        self.capacity
    }

    /// Whether a piece may be dealt to a lane: exactly where fewer pieces wait on it than the capacity.
    pub fn may_deal(&self, lane: u32) -> bool
        requires { lane < self.now.lanes }
        // It may exactly where fewer pieces wait on the lane than the capacity.
        ensures { IsTrue result ↔ (waiting_at self.now lane < self.now.capacity) }
    {
        self.waiting(lane) < u64::from(self.capacity.get())
    }

    /// Deals the next piece to a lane that it may be dealt to, and answers the piece's number. An error means that memory
    /// was refused, and then nothing is changed.
    pub fn deal(&mut self, lane: u32) -> Result<u64, AllocError>
        requires lane { lane < self.old.lanes }
        requires window { waiting_at self.old lane < self.old.capacity }
        // The result is the number of the piece.
        ensures number { IfOk result (λ number. number ≡ length self.old.dealt) }
        // The piece goes to this lane, after the others.
        ensures dealt { OnOk result (self.new ≡ record self.old { dealt = self.old.dealt ++ lane ∷ [] }) }
        // One more waits there.
        ensures waits { OnOk result (waiting_at self.new lane ≡ waiting_at self.old lane + 1) }
        // A refusal changes nothing.
        ensures refused { OnErr result (self.new ≡ self.old) }
    {
        let number = self.dealt.len() as u64;
        self.dealt.push(lane)?;
        self.waiting[lane as usize] += 1;
        Ok(number)
    }

    /// The lane of the first piece that was not joined yet, which is the one to be joined next; `None` exactly where all
    /// pieces were joined.
    pub fn next_lane(&self) -> Option<u32>
        // The lane of the first piece that was not joined.
        ensures next { result ≡ slice_get self.now.dealt self.now.joined }
        // There is one only where not all pieces were joined.
        ensures some { IsSome result ↔ (self.now.joined < length self.now.dealt) }
        // It is one of the lanes.
        ensures lane { IfSome result (λ lane. lane < self.now.lanes) }
        // Pieces wait on it.
        ensures waits { IfSome result (λ lane. 0 < waiting_at self.now lane) }
        // There is none only where all were joined.
        ensures none { IfNone result (self.now.joined ≡ length self.now.dealt) }
    {
        self.dealt.get(self.joined).copied()
    }

    /// Notes that the first piece that was not joined yet is joined now.
    pub fn joined(&mut self)
        requires { self.old.joined < length self.old.dealt }
        ensures { self.new ≡ record self.old { joined = self.old.joined + 1 } }
    {
        let lane = self.dealt[self.joined];
        self.waiting[lane as usize] -= 1;
        self.joined += 1;
    }

    /// The lane of each piece that was dealt. Those that wait are in all at no moment more than the capacity for each lane.
    #[tactic(auto, using(crate::proofs::DeskLemmas::waiting_in_all))]
    pub fn dealt(&self) -> &[u32]
        // The lane of each piece.
        ensures dealt { result.now ≡ self.now.dealt }
        // Each is one of the lanes.
        ensures lanes { All (λ lane. lane < self.now.lanes) result.now }
        // No more pieces were joined than dealt.
        ensures joined { self.now.joined ≤ length result.now }
        // On all lanes together no more pieces wait than the capacity for each lane.
        ensures window { length result.now - self.now.joined ≤ self.now.lanes * self.now.capacity }
    {
        self.dealt.as_slice()
    }

    /// How many pieces wait on a lane: at no moment more than the capacity.
    pub fn waiting(&self, lane: u32) -> u64
        requires { lane < self.now.lanes }
        // How many pieces wait on the lane.
        ensures value { result ≡ waiting_at self.now lane }
        // Never more than the capacity.
        ensures window { result ≤ self.now.capacity }
    {
        self.waiting[lane as usize]
    }

    /// The lane of each piece that was dealt.
    pub fn into_dealt(self) -> Vec<u32>
        // The lane of each piece.
        ensures dealt { result.items ≡ self.dealt }
        // Each is one of the lanes.
        ensures lanes { All (λ lane. lane < self.lanes) result.items }
    {
        self.dealt
    }
}
