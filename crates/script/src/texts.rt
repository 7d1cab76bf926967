// Steps, and what is seen at them, as they are written.
ghost use Rattle.std.specs.Prelude.{Some};
ghost use Rattle.script.specs.Texts.{step_text, seen_text};

use crate::steps::{Seen, Step};
use notice::Event;
use std::fmt;

// The verb and the slot; of a put the job, and of a look at a place that place.
impl fmt::Display for Step {
    ghost output = { λ step. Some (step_text step) };

    fn fmt<W: fmt::Write>(&self, f: &mut fmt::Formatter<W>) -> fmt::Result {
        match self {
            Step::Put { slot, notice } => match notice.event {
                Event::Job(event) => write!(f, "put {slot} {}", event.job),
                Event::Printer(_) => write!(f, "put {slot}"),
            },
            Step::DropOldest { slot } => write!(f, "drop {slot}"),
            Step::Clear { slot } => write!(f, "clear {slot}"),
            Step::Len { slot } => write!(f, "len {slot}"),
            Step::At { slot, place } => write!(f, "at {slot} {place}"),
        }
    }
}

impl fmt::Display for Seen {
    ghost output = { λ seen. Some (seen_text seen) };

    fn fmt<W: fmt::Write>(&self, f: &mut fmt::Formatter<W>) -> fmt::Result {
        match self {
            Seen::Taken => write!(f, "taken"),
            Seen::Refused => write!(f, "refused"),
            Seen::Done => write!(f, "done"),
            Seen::Length(n) => write!(f, "{n}"),
            Seen::Found(None) => write!(f, "none"),
            Seen::Found(Some(notice)) => {
                write!(f, "notice {}, second {}, ", notice.number, notice.second)?;
                match notice.event {
                    Event::Job(event) => write!(f, "job {}", event.job),
                    Event::Printer(_) => write!(f, "printer"),
                }
            }
        }
    }
}
