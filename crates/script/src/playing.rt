// Whole scripts. The memory for the answers is taken first, so want of memory changes no store.
ghost use Rattle.std.specs.Prelude.{◌≡◌, ◌+◌, ◌≤◌, ◌++◌, length, is_ok, IfOk, if◌then◌else◌, vec_len, vec_capacity};
ghost use Rattle.script.specs.Script.{contents, seen_all, after_all};

use crate::steps::{Seen, Step, take_step};
use std::alloc::{AllocError, Global};
use store::NoticeStore;

// Takes the steps in their order, and adds what each answers to `seen`.
fn play_into<S: NoticeStore>(store: &mut S, steps: &[Step], seen: &mut Vec<Seen>)
    requires { vec_len seen.old + length steps.now ≤ vec_capacity seen.old }
    ensures seen { seen.new.items ≡ seen.old.items ++ seen_all (contents S.NoticeStore store.old) steps.now }
    ensures contents { contents S.NoticeStore store.new ≡ after_all (contents S.NoticeStore store.old) steps.now }
{
    for step in steps {
        seen.push_reserved(take_step(store, *step));
    }
}

// What the steps answer, in their order.
pub fn play<S: NoticeStore>(
    heap: Global,
    store: &mut S,
    steps: &[Step],
) -> Result<Vec<Seen>, AllocError>
    ensures seen { IfOk result (λ v. v.items ≡ seen_all (contents S.NoticeStore store.old) steps.now) }
    ensures contents { contents S.NoticeStore store.new ≡ (if is_ok result then after_all (contents S.NoticeStore store.old) steps.now else contents S.NoticeStore store.old) }
{
    let mut seen = Vec::with_capacity(heap, steps.len())?;
    play_into(store, steps, &mut seen);
    Ok(seen)
}

// One script on two stores, whatever each is made of; not two calls of `play`, since the memory for
// both is taken before the first step. Where their contents are the same before, what
// is seen of the one is what is seen of the other, and their contents are the same after.
pub fn play_both<S: NoticeStore, T: NoticeStore>(
    heap: Global,
    first: &mut S,
    second: &mut T,
    steps: &[Step],
) -> Result<(Vec<Seen>, Vec<Seen>), AllocError>
    ensures first_seen { IfOk result (λ p. p.0.items ≡ seen_all (contents S.NoticeStore first.old) steps.now) }
    ensures second_seen { IfOk result (λ p. p.1.items ≡ seen_all (contents T.NoticeStore second.old) steps.now) }
    ensures first_contents { contents S.NoticeStore first.new ≡ (if is_ok result then after_all (contents S.NoticeStore first.old) steps.now else contents S.NoticeStore first.old) }
    ensures second_contents { contents T.NoticeStore second.new ≡ (if is_ok result then after_all (contents T.NoticeStore second.old) steps.now else contents T.NoticeStore second.old) }
    ensures alike { contents S.NoticeStore first.old ≡ contents T.NoticeStore second.old → IfOk result (λ p. p.0.items ≡ p.1.items) × (contents S.NoticeStore first.new ≡ contents T.NoticeStore second.new) }
{
    let mut seen_first = Vec::with_capacity(heap, steps.len())?;
    let mut seen_second = Vec::with_capacity(heap, steps.len())?;
    play_into(first, steps, &mut seen_first);
    play_into(second, steps, &mut seen_second);
    Ok((seen_first, seen_second))
}
