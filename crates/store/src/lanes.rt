// A store in which each slot has places of its own, as many as the reserve, and there is no spare.
ghost use Rattle.std.specs.Prelude.{◌≤◌, vec_len};
ghost use Rattle.std.specs.VecDeque.{deque_len, deque_capacity};
ghost use Rattle.std.specs.List.{All};

use notice::Notice;
use std::collections::VecDeque;

mod methods;

// `reserve` is how many notices every slot may hold.
#[derive(Drop)]
pub struct Lanes {
    lanes: Vec<VecDeque<Notice>>,
    reserve: usize,
    ghost few: { vec_len lanes ≤ 65535 },
    ghost small: { reserve ≤ 65535 },
    ghost short: { All (λ q. deque_len q ≤ reserve) lanes.items },
    ghost roomy: { All (λ q. reserve ≤ deque_capacity q) lanes.items },
}
