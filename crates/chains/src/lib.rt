// A store whose slots share one table of places, joined by links: each slot's notices stand on a
// chain of places, and so do the places that are free.
#![tactic(auto)]

mod chain;
pub mod chains;
mod place;

pub use chains::Chains;
