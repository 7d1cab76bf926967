// A layer over any store: what the store below has no room for waits on a shelf.
#![tactic(auto)]

mod entry;
mod scans;
pub mod shelf;

pub use shelf::Shelf;
