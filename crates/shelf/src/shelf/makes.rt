// How a shelf is made.
ghost use Rattle.std.specs.Prelude.{◌≡◌, ◌+◌, min, [], IfOk, IfErr};
ghost use Rattle.store.specs.Sizes.{shelf_made};
ghost use Rattle.shelf.specs.Shelf.{extended, places};

use super::Shelf;
use std::alloc::{AllocFailed, Global};
use store::{NoticeStore, Size};

impl<S: NoticeStore> Shelf<S> {
    // A shelf over a store, with nothing on it, that holds 1 to 16 notices; a size out of range is
    // made the nearest in it, and cut where the spare would come to be over 65,535. For want of
    // memory the store is handed back.
    #[tactic(auto, using(crate::specs::Extended::extended_none))]
    pub fn new(heap: Global, lower: S, size: usize) -> Result<Shelf<S>, AllocFailed<S>>
        ensures lower { IfOk result (λ s. s.lower ≡ lower) }
        ensures empty { IfOk result (λ s. s.entries.items ≡ []) }
        ensures size { IfOk result (λ s. s.size ≡ places (shelf_made size) (S.spare lower)) }
        ensures lists { IfOk result (λ s. extended (S.lists s.lower) s.entries.items ≡ S.lists lower) }
        ensures spare { IfOk result (λ s. S.spare s.lower + s.size ≡ min 65535 (S.spare lower + shelf_made size)) }
        ensures handed_back { IfErr result (λ e. e.value ≡ lower) }
    {
        let left = 65535usize.saturating_sub(lower.spare_size());
        let size = Size::Shelf.nearest(size).min(left);
        let Ok(entries) = Vec::with_capacity(heap, size) else {
            return Err(AllocFailed { value: lower });
        };
        Ok(Shelf {
            lower,
            entries,
            size,
        })
    }
}
