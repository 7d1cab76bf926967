// Steps that can be asked of any store, and what is seen of it.
#![tactic(auto)]

pub mod playing;
pub mod steps;
pub mod texts;

pub use playing::{play, play_both};
pub use steps::{Seen, Step, take_step};
