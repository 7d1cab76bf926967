// Searches among the entries of a shelf.
ghost use Rattle.std.specs.Prelude.{◌≡◌, ◌≤◌, count_by, vec_len, vec_capacity};
ghost use Rattle.std.specs.List.{slice_get};
ghost use Rattle.shelf.specs.Shelf.{is_for, others, waiting, without_oldest};

use crate::entry::Entry;
use notice::Notice;

// How many notices wait for a slot.
pub fn count_of(entries: &[Entry], slot: usize) -> usize
    ensures { result ≡ count_by (is_for slot) entries.now }
{
    entries.iter().filter(|e| e.slot == slot).count()
}

// The notice at a place among those that wait for a slot.
pub fn nth_of(entries: &[Entry], slot: usize, place: usize) -> Option<Notice>
    ensures { result ≡ slice_get (waiting entries.now slot) place }
{
    entries
        .iter()
        .filter(|e| e.slot == slot)
        .nth(place)
        .map(|e| e.notice)
}

// Takes off the oldest entry of a slot, if there is one.
pub fn remove_first(entries: &mut Vec<Entry>, slot: usize)
    ensures items { entries.new.items ≡ without_oldest entries.old.items slot }
    ensures len { vec_len entries.new ≤ vec_len entries.old }
    ensures capacity { vec_capacity entries.new ≡ vec_capacity entries.old }
{
    if let Some(first) = entries.iter().position(|e| e.slot == slot) {
        let _ = entries.remove(first);
    }
}

// Takes off every entry of a slot; the others stay in their order.
pub fn remove_all(entries: &mut Vec<Entry>, slot: usize)
    ensures items { entries.new.items ≡ others entries.old.items slot }
    ensures len { vec_len entries.new ≤ vec_len entries.old }
    ensures capacity { vec_capacity entries.new ≡ vec_capacity entries.old }
{
    entries.retain(|e| e.slot != slot);
}
