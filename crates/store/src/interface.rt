// What a store of notices is: for each slot a list of notices, a reserve and a spare.
ghost use Rattle.std.specs.Prelude.{◌≡◌, ℕ, ◌≤◌, not, List, length, is_ok, if◌then◌else◌, codes, Some};
ghost use Rattle.std.specs.List.{slice_get};
ghost use Rattle.notice.specs.declared.event.Notice.{Notice};
ghost use Rattle.store.specs.Meaning.{held, in_use, full, put_at, drop_at, clear_at};

use crate::sizes::Sizes;
use notice::Notice;
use std::error::Error;
use std::fmt;

// The refusal of a put: the slot is full, or there is no such slot.
#[derive(Clone, Copy, Debug, PartialEq, Eq)]
pub struct Full;

impl fmt::Display for Full {
    ghost output = { λ _. Some (codes "the slot takes no more notices") };

    fn fmt<W: fmt::Write>(&self, f: &mut fmt::Formatter<W>) -> fmt::Result {
        write!(f, "the slot takes no more notices")
    }
}

impl Error for Full {}

// Slots, and the places of a list, count from 0. Nothing is required of a caller: a slot that is
// not there holds nothing and takes nothing. Each call that changes a list says of reserve and spare,
// each by its name, that it stays: what a store is, is these three, and no record of them is asked of it.
pub trait NoticeStore {
    // For each slot its notices, the oldest first.
    ghost lists: { Self → List (List Notice) };

    // How many notices every slot may hold in any case.
    ghost reserve: { Self → ℕ };

    // How many more all slots together may hold.
    ghost spare: { Self → ℕ };

    fn slots(&self) -> usize
        ensures { result ≡ length (lists self.now) };

    fn reserve_size(&self) -> usize
        ensures { result ≡ reserve self.now };

    fn spare_size(&self) -> usize
        ensures { result ≡ spare self.now };

    // The number of slots, the reserve and the spare.
    final fn sizes(&self) -> Sizes
        ensures slots { result.slots ≡ length (lists self.now) }
        ensures reserve { result.reserve ≡ reserve self.now }
        ensures spare { result.spare ≡ spare self.now }
    {
        Sizes {
            slots: self.slots(),
            reserve: self.reserve_size(),
            spare: self.spare_size(),
        }
    }

    fn len(&self, slot: usize) -> usize
        ensures { result ≡ length (held (lists self.now) slot) };

    // The notice at a place of a list; none beyond its end.
    fn at(&self, slot: usize, place: usize) -> Option<Notice>
        ensures { result ≡ slice_get (held (lists self.now) slot) place };

    // Adds a notice at the end of a list; a refusal changes no list.
    fn put(&mut self, slot: usize, notice: Notice) -> Result<(), Full>
        ensures taken { is_ok result ≡ not (full (reserve self.old) (spare self.old) (lists self.old) slot) }
        ensures lists { lists self.new ≡ (if is_ok result then put_at (lists self.old) slot notice else lists self.old) }
        ensures reserve { reserve self.new ≡ reserve self.old }
        ensures spare { spare self.new ≡ spare self.old };

    // Takes the oldest notice off a list, if there is one.
    fn drop_oldest(&mut self, slot: usize)
        ensures lists { lists self.new ≡ drop_at (lists self.old) slot }
        ensures reserve { reserve self.new ≡ reserve self.old }
        ensures spare { spare self.new ≡ spare self.old };

    fn clear(&mut self, slot: usize)
        ensures lists { lists self.new ≡ clear_at (lists self.old) slot }
        ensures reserve { reserve self.new ≡ reserve self.old }
        ensures spare { spare self.new ≡ spare self.old };

    ghost slots_bound: { (s : Self) → length (lists s) ≤ 65535 };

    ghost reserve_bound: { (s : Self) → reserve s ≤ 65535 };

    ghost spare_bound: { (s : Self) → spare s ≤ 65535 };

    // What is held above the reserve, over all slots, is never more than the spare.
    ghost in_use_bound: { (s : Self) → in_use (reserve s) (lists s) ≤ spare s };
}
