// A store over another one: a notice that the lower store has no room for waits on a shelf.
ghost use Rattle.std.specs.Prelude.{◌+◌, ◌≤◌, vec_len, vec_capacity};
ghost use Rattle.shelf.specs.Shelf.{Placed};

use crate::entry::Entry;
use store::NoticeStore;

mod makes;
mod methods;
mod moves;

// `entries` stand in the order in which they came, each for a slot that the lower store has; `size`
// is how many the shelf may hold. It has the memory for them, and its spare, that of the lower store
// and the size, is at most 65,535.
#[derive(Drop)]
pub struct Shelf<S: NoticeStore> {
    lower: S,
    entries: Vec<Entry>,
    size: usize,
    ghost roomy: { size ≤ vec_capacity entries },
    ghost short: { vec_len entries ≤ size },
    ghost within: { S.spare lower + size ≤ 65535 },
    ghost placed: { Placed (S.lists lower) entries.items },
}
