// What a store of notices is, and the simplest of the stores.
#![tactic(auto)]

pub mod interface;
pub mod lanes;
pub mod meaning;
pub mod sizes;

pub use interface::{Full, NoticeStore};
pub use lanes::Lanes;
pub use sizes::{Size, Sizes};
