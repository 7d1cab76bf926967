// What a shelf does.
ghost use Rattle.std.specs.Prelude.{◌+◌};
ghost use Rattle.shelf.specs.Shelf.{extended};
ghost use Rattle.std.proofs.Common.{arith};
ghost use Rattle.shelf.specs.Extended.{length_extended, in_use_most};

use super::Shelf;
use crate::entry::Entry;
use crate::scans::{count_of, nth_of, remove_all, remove_first};
use notice::Notice;
use store::{Full, NoticeStore};

impl<S: NoticeStore> NoticeStore for Shelf<S> {
    ghost lists = { λ s. extended (S.lists s.lower) s.entries.items };

    ghost reserve = { λ s. S.reserve s.lower };

    ghost spare = { λ s. S.spare s.lower + s.size };

    ghost slots_bound = { λ s. Prim.omega (arith, length_extended (S.lists s.lower) s.entries.items, S.slots_bound s.lower) };

    ghost reserve_bound = { λ s. S.reserve_bound s.lower };

    ghost spare_bound = { λ s. s.within };

    ghost in_use_bound = { λ s. Prim.omega (arith, in_use_most (S.reserve s.lower) (S.lists s.lower) s.entries.items, S.in_use_bound s.lower, s.short, s.entries.ok.0) };

    #[tactic(auto, using(crate::specs::Extended::length_extended))]
    fn slots(&self) -> usize {
        self.lower.slots()
    }

    fn reserve_size(&self) -> usize {
        self.lower.reserve_size()
    }

    fn spare_size(&self) -> usize {
        self.lower.spare_size() + self.size
    }

    #[tactic(auto, using(crate::proofs::Changes::lengths))]
    fn len(&self, slot: usize) -> usize {
        self.lower.len(slot) + count_of(&self.entries, slot)
    }

    #[tactic(auto, using(crate::proofs::Changes::held_extended, crate::proofs::Places::nth_left, crate::proofs::Places::nth_right))]
    fn at(&self, slot: usize, place: usize) -> Option<Notice> {
        let below = self.lower.len(slot);
        if place < below {
            return self.lower.at(slot, place);
        }
        nth_of(&self.entries, slot, place - below)
    }

    #[tactic(auto, using(crate::proofs::Room::puts))]
    fn put(&mut self, slot: usize, notice: Notice) -> Result<(), Full> {
        if slot >= self.lower.slots() {
            return Err(Full);
        }
        if self.put_below(slot, notice).is_ok() {
            return Ok(());
        }
        self.make_room()?;
        self.entries.push_reserved(Entry { slot, notice });
        Ok(())
    }

    #[tactic(auto, using(crate::proofs::Changes::extended_drop, crate::proofs::Changes::extended_drop_below))]
    fn drop_oldest(&mut self, slot: usize) {
        if self.lower.len(slot) == 0 {
            remove_first(&mut self.entries, slot);
        } else {
            self.lower.drop_oldest(slot);
        }
    }

    #[tactic(auto, using(crate::proofs::Changes::cleared, crate::proofs::Changes::placed_cleared))]
    fn clear(&mut self, slot: usize) {
        self.lower.clear(slot);
        remove_all(&mut self.entries, slot);
    }
}
