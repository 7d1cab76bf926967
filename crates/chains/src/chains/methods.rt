// What chains do.
ghost use Rattle.std.specs.Prelude.{◌≡◌, ◌+◌, ◌-◌, ◌^◌, ◌<◌, ◌≤◌, false, List, length, slice_set, IfNone, IfSome, MatchOption};
ghost use Rattle.notice.specs.declared.event.Notice.{Notice};
ghost use Rattle.store.specs.Meaning.{held, in_use, full, put_at, drop_at};
ghost use Rattle.chains.specs.Links.{chain_at};
ghost use Rattle.chains.specs.Lists.{slot_lists};
ghost use Rattle.std.proofs.Common.{arith, rules};

use super::Chains;
use super::moves::{follow, shift};
use crate::chain::Chain;
use notice::Notice;
use store::{Full, NoticeStore};

// How much of the spare a slot uses that holds `count` notices.
fn above(count: usize, reserve: usize) -> usize
    ensures { result ≡ count - reserve }
{
    count.saturating_sub(reserve)
}

impl Chains {
    // The chain of a slot; none where there is no such slot.
    fn chain(&self, slot: usize) -> Option<&Chain>
        ensures chain { IfSome result (λ c. c.now ≡ chain_at self.now.chains.items (slot + 1)) }
        ensures none { IfNone result (length (slot_lists self.now) ≤ slot) }
        ensures count { MatchOption result (length (held (slot_lists self.now) slot) ≡ 0) (λ c. c.now.count ≡ length (held (slot_lists self.now) slot)) }
    {
        self.chains[1..].get(slot)
    }

    // Whether a slot takes no more.
    fn is_full(&self, slot: usize) -> bool
        ensures { result ≡ full self.now.reserve self.now.spare (slot_lists self.now) slot }
    {
        slot >= self.slots() || (self.len(slot) >= self.reserve && self.used == self.spare)
    }

    // The spare in use, were the list of a slot another one of `count` notices.
    #[tactic(auto, using(store::proofs::Follows::in_use_part, store::proofs::Follows::in_use_set))]
    fn used_with(&self, slot: usize, count: usize) -> usize
        requires slot { slot < length (slot_lists self.now) }
        requires count { count < 2 ^ 32 }
        ensures { (l : List Notice) → length l ≡ count → result ≡ in_use self.now.reserve (slice_set (slot_lists self.now) slot l) }
    {
        self.used - above(self.len(slot), self.reserve) + above(count, self.reserve)
    }

    // Writes the notice on the first free place, and moves that place to the end of the slot's chain.
    fn append(&mut self, slot: usize, notice: Notice)
        requires { full self.old.reserve self.old.spare (slot_lists self.old) slot ≡ false }
        ensures lists { slot_lists self.new ≡ put_at (slot_lists self.old) slot notice }
        ensures reserve { self.new.reserve ≡ self.old.reserve }
        ensures spare { self.new.spare ≡ self.old.spare }
    {
        let used = self.used_with(slot, self.len(slot) + 1);
        let free = self.chains[0].first;
        self.places[free as usize].notice = notice;
        shift(&mut self.places, &mut self.chains, 0, slot + 1);
        self.used = used;
    }

    // Moves the first place of the slot's chain to the end of the free ones.
    fn release(&mut self, slot: usize)
        requires { 0 < length (held (slot_lists self.old) slot) }
        ensures lists { slot_lists self.new ≡ drop_at (slot_lists self.old) slot }
        ensures reserve { self.new.reserve ≡ self.old.reserve }
        ensures spare { self.new.spare ≡ self.old.spare }
    {
        let used = self.used_with(slot, self.len(slot) - 1);
        shift(&mut self.places, &mut self.chains, slot + 1, 0);
        self.used = used;
    }
}

impl NoticeStore for Chains {
    ghost lists = { slot_lists };

    ghost reserve = { λ s. s.reserve };

    ghost spare = { λ s. s.spare };

    ghost slots_bound = { λ s. Prim.omega (arith, s.counted, s.few) };

    ghost reserve_bound = { Prim.search rules };

    ghost spare_bound = { Prim.search rules };

    ghost in_use_bound = { Prim.search rules };

    fn slots(&self) -> usize {
        self.chains.len() - 1
    }

    fn reserve_size(&self) -> usize {
        self.reserve
    }

    fn spare_size(&self) -> usize {
        self.spare
    }

    fn len(&self, slot: usize) -> usize {
        self.chain(slot).map_or(0, |chain| chain.count as usize)
    }

    fn at(&self, slot: usize, place: usize) -> Option<Notice> {
        let chain = self.chain(slot)?;
        if place >= chain.count as usize {
            return None;
        }
        let p = follow(&self.places, chain.first, place);
        Some(self.places[p as usize].notice)
    }

    fn put(&mut self, slot: usize, notice: Notice) -> Result<(), Full> {
        if self.is_full(slot) {
            return Err(Full);
        }
        self.append(slot, notice);
        Ok(())
    }

    #[tactic(auto, using(store::proofs::Follows::drop_nothing))]
    fn drop_oldest(&mut self, slot: usize) {
        if self.len(slot) > 0 {
            self.release(slot);
        }
    }

    // One place after another, so that the time grows with what is cleared.
    #[tactic(auto, using(store::proofs::Follows::clear_nothing, store::proofs::Follows::clear_dropped, store::proofs::Follows::drop_shortens))]
    fn clear(&mut self, slot: usize) {
        while self.len(slot) > 0 {
            self.drop_oldest(slot);
        }
    }
}
