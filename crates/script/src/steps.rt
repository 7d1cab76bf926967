// One step of a script: a call of a store, and what it answers.
ghost use Rattle.std.specs.Prelude.{◌≡◌};
ghost use Rattle.script.specs.Script.{contents, seen_at, after};

use notice::Notice;
use store::{Full, NoticeStore};

#[derive(Clone, Copy, Debug, PartialEq, Eq)]
pub enum Step {
    Put { slot: usize, notice: Notice },
    DropOldest { slot: usize },
    Clear { slot: usize },
    Len { slot: usize },
    At { slot: usize, place: usize },
}

#[derive(Clone, Copy, Debug, PartialEq, Eq)]
pub enum Seen {
    // A put, which the store takes or refuses: each a word of its own where it is shown.
    Taken,
    Refused,
    // A drop or a clear, which answer nothing.
    Done,
    Length(usize),
    Found(Option<Notice>),
}

// A step is data, which a script holds, compares and prints; a closure would be none of these.
pub fn take_step<S: NoticeStore>(store: &mut S, step: Step) -> Seen
    ensures seen { result ≡ seen_at (contents S.NoticeStore store.old) step }
    ensures contents { contents S.NoticeStore store.new ≡ after (contents S.NoticeStore store.old) step }
{
    match step {
        Step::Put { slot, notice } => match store.put(slot, notice) {
            Ok(()) => Seen::Taken,
            Err(Full) => Seen::Refused,
        },
        Step::DropOldest { slot } => {
            store.drop_oldest(slot);
            Seen::Done
        }
        Step::Clear { slot } => {
            store.clear(slot);
            Seen::Done
        }
        Step::Len { slot } => Seen::Length(store.len(slot)),
        Step::At { slot, place } => Seen::Found(store.at(slot, place)),
    }
}
