// How notices get from a shelf into the store below it.
ghost use Rattle.std.specs.Prelude.{◌≡◌, ◌<◌, if◌then◌else◌, vec_len, is_ok, OnOk, OnErr};
ghost use Rattle.store.specs.Meaning.{put_at};
ghost use Rattle.shelf.specs.Shelf.{extended, goes_below, Stuck};

use super::Shelf;
use crate::scans::count_of;
use notice::Notice;
use store::{Full, NoticeStore};

impl<S: NoticeStore> Shelf<S> {
    // Puts a notice into the lower store, unless an earlier one of its slot waits: none is overtaken.
    #[tactic(auto, using(crate::proofs::Waiting::count_waiting))]
    pub(super) fn put_below(&mut self, slot: usize, notice: Notice) -> Result<(), Full>
        ensures taken { is_ok result ≡ goes_below (S.reserve self.old.lower) (S.spare self.old.lower) (S.lists self.old.lower) self.old.entries.items slot }
        ensures lists { S.lists self.new.lower ≡ (if is_ok result then put_at (S.lists self.old.lower) slot notice else S.lists self.old.lower) }
        ensures reserve { S.reserve self.new.lower ≡ S.reserve self.old.lower }
        ensures spare { S.spare self.new.lower ≡ S.spare self.old.lower }
        ensures entries { self.new.entries ≡ self.old.entries }
        ensures size { self.new.size ≡ self.old.size }
    {
        if count_of(&self.entries, slot) > 0 {
            return Err(Full);
        }
        self.lower.put(slot, notice)
    }

    // Sees to it that there is a place on the shelf: where there is none, the first entry leaves that
    // may. No list changes by it.
    #[tactic(auto, using(crate::proofs::Room::moved))]
    pub(super) fn make_room(&mut self) -> Result<(), Full>
        ensures lists { extended (S.lists self.new.lower) self.new.entries.items ≡ extended (S.lists self.old.lower) self.old.entries.items }
        ensures reserve { S.reserve self.new.lower ≡ S.reserve self.old.lower }
        ensures spare { S.spare self.new.lower ≡ S.spare self.old.lower }
        ensures size { self.new.size ≡ self.old.size }
        ensures room { OnOk result (vec_len self.new.entries < self.new.size) }
        ensures full { OnErr result (vec_len self.old.entries ≡ self.old.size) }
        ensures stuck { OnErr result (Stuck (S.reserve self.old.lower) (S.spare self.old.lower) (S.lists self.old.lower) self.old.entries.items) }
    {
        if self.entries.len() < self.size {
            return Ok(());
        }
        // A `for` and no `position`: the test of an entry changes the store below.
        for (j, e) in self.entries.iter().enumerate() {
            if self.lower.put(e.slot, e.notice).is_ok() {
                let _ = self.entries.remove(j);
                return Ok(());
            }
        }
        Err(Full)
    }
}
