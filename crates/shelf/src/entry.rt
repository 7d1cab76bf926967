// A notice that waits on a shelf, and the slot that it waits for.
use notice::Notice;

#[derive(Clone, Copy)]
pub struct Entry {
    pub slot: usize,
    pub notice: Notice,
}
