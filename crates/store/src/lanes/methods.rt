// What lanes do.
ghost use Rattle.std.specs.Prelude.{◌≡◌, [], replicate, IfOk, MatchOption};
ghost use Rattle.store.specs.Lanes.{lane_lists};
ghost use Rattle.store.specs.Meaning.{held};
ghost use Rattle.store.specs.Sizes.{slots_made, reserve_made};
ghost use Rattle.std.proofs.Common.{arith, rules};
ghost use Rattle.store.specs.LaneLaws.{lanes_long, none_of_spare};

use super::Lanes;
use crate::interface::{Full, NoticeStore};
use crate::sizes::Size;
use notice::Notice;
use std::alloc::{AllocError, Global};
use std::collections::VecDeque;

impl Lanes {
    // Empty lanes: 1 to 64 slots, each with 1 to 9 places; a size out of range is made the nearest in it.
    pub fn new(heap: Global, slots: usize, reserve: usize) -> Result<Lanes, AllocError>
        ensures { IfOk result (λ s. (lane_lists s ≡ replicate (slots_made slots) []) × (s.reserve ≡ reserve_made reserve)) }
    {
        let slots = Size::Slots.nearest(slots);
        let reserve = Size::Reserve.nearest(reserve);
        let mut lanes = Vec::with_capacity(heap, slots)?;
        for _ in 0..slots {
            lanes.push_reserved(VecDeque::with_capacity(heap, reserve)?);
        }
        Ok(Lanes { lanes, reserve })
    }

    // The lane of a slot; none where there is no such slot.
    fn lane(&self, slot: usize) -> Option<&VecDeque<Notice>>
        ensures { MatchOption result (held (lane_lists self.now) slot ≡ []) (λ q. q.now.items ≡ held (lane_lists self.now) slot) }
    {
        self.lanes.get(slot)
    }
}

impl NoticeStore for Lanes {
    ghost lists = { lane_lists };

    ghost reserve = { λ s. s.reserve };

    ghost spare = { λ _. 0 };

    ghost slots_bound = { λ s. Prim.omega (arith, lanes_long s, s.few) };

    ghost reserve_bound = { Prim.search rules };

    ghost spare_bound = { Prim.search rules };

    ghost in_use_bound = { λ s. Prim.omega (arith, none_of_spare s) };

    #[tactic(auto, using(crate::specs::LaneLaws::lanes_long))]
    fn slots(&self) -> usize {
        self.lanes.len()
    }

    fn reserve_size(&self) -> usize {
        self.reserve
    }

    fn spare_size(&self) -> usize {
        0
    }

    fn len(&self, slot: usize) -> usize {
        self.lane(slot).map_or(0, |lane| lane.len())
    }

    fn at(&self, slot: usize, place: usize) -> Option<Notice> {
        self.lane(slot)?.get(place).copied()
    }

    #[tactic(auto, using(crate::proofs::LaneLists::lane_read, crate::proofs::LaneLists::lane_written, crate::specs::LaneLaws::none_of_spare))]
    fn put(&mut self, slot: usize, notice: Notice) -> Result<(), Full> {
        let lane = self.lanes.get_mut(slot).ok_or(Full)?;
        if lane.len() >= self.reserve {
            return Err(Full);
        }
        lane.push_back_reserved(notice);
        Ok(())
    }

    #[tactic(auto, using(crate::proofs::LaneLists::lane_read, crate::proofs::LaneLists::lane_written))]
    fn drop_oldest(&mut self, slot: usize) {
        if let Some(lane) = self.lanes.get_mut(slot) {
            lane.pop_front();
        }
    }

    #[tactic(auto, using(crate::proofs::LaneLists::lane_written))]
    fn clear(&mut self, slot: usize) {
        if let Some(lane) = self.lanes.get_mut(slot) {
            lane.clear();
        }
    }
}
