// Events of the printer and of its jobs, and the notices that tell of them.
ghost use Rattle.std.specs.Prelude.{◌≡◌, ◌&&◌};
ghost use Rattle.notice.specs.declared.decline.Decline.TheVariants.{EventDetail};
ghost use Rattle.notice.specs.Events.{event_kind, job_figures_fit, job_state_fits, printer_event_of, job_event_of, event_of, EventExamples};

use crate::decline::Decline;
use crate::kinds::{JobKind, Kind, PrinterKind};
use crate::numbers::UnknownNumber;
use crate::reasons::{JobReason, PrinterReason};
use crate::states::{JobState, PrinterState};

#[derive(Clone, Copy, Debug, PartialEq, Eq)]
pub struct PrinterEvent {
    pub kind: PrinterKind,
    pub state: PrinterState,
    pub reason: PrinterReason,
    pub accepting: bool,
}

// `count` is the number of impressions that are completed.
#[derive(Clone, Copy, Debug, PartialEq, Eq)]
pub struct JobEvent {
    pub kind: JobKind,
    pub job: u32,
    pub state: JobState,
    pub reason: JobReason,
    pub count: u32,
}

#[derive(Clone, Copy, Debug, PartialEq, Eq)]
pub enum Event {
    Printer(PrinterEvent),
    Job(JobEvent),
}

// An event as a subscription is told of it: `number` is its place in the numbering of the
// subscription, from 1, `second` is when it came, and `subscribed` is the kind that was asked for.
#[derive(Clone, Copy, Debug, PartialEq, Eq)]
pub struct Notice {
    pub number: u32,
    pub second: u32,
    pub subscribed: Kind,
    pub event: Event,
}

// The largest job number, and the largest count.
const LARGEST: u32 = 2_147_483_647;

// The numbers by which an event is reported, as they came.
#[derive(Clone, Copy, Debug, PartialEq, Eq)]
pub struct EventNumbers {
    pub kind: u32,
    pub job: u32,
    pub state: u32,
    pub reason: u32,
    pub count: u32,
    pub accepting: u32,
}

// A state or a reason that stands for nothing is a wrong detail of its event.
fn wrong_detail(_unknown: UnknownNumber) -> Decline
    ensures { result ≡ EventDetail }
{
    Decline::EventDetail
}

impl EventNumbers {
    fn printer_event(self, kind: PrinterKind) -> Result<Event, Decline>
        ensures { result ≡ printer_event_of kind self.job self.state self.reason self.count self.accepting }
    {
        if self.job != 0 || self.count != 0 || self.accepting > 1 {
            return Err(Decline::EventDetail);
        }
        Ok(Event::Printer(PrinterEvent {
            kind,
            state: PrinterState::try_from(self.state).map_err(wrong_detail)?,
            reason: PrinterReason::try_from(self.reason).map_err(wrong_detail)?,
            accepting: self.accepting == 1,
        }))
    }

    // Whether a job's event of this kind may have this job, count, accepting and state.
    fn fits_job(self, kind: JobKind) -> bool
        ensures { result ≡ (job_figures_fit self.job self.count self.accepting && job_state_fits kind self.state) }
    {
        self.job >= 1
            && self.job <= LARGEST
            && self.count <= LARGEST
            && self.accepting == 0
            && (kind != JobKind::Completed || self.state >= JobState::Canceled as u32)
    }

    fn job_event(self, kind: JobKind) -> Result<Event, Decline>
        ensures { result ≡ job_event_of kind self.job self.state self.reason self.count self.accepting }
    {
        if !self.fits_job(kind) {
            return Err(Decline::EventDetail);
        }
        Ok(Event::Job(JobEvent {
            kind,
            job: self.job,
            state: JobState::try_from(self.state).map_err(wrong_detail)?,
            reason: JobReason::try_from(self.reason).map_err(wrong_detail)?,
            count: self.count,
        }))
    }
}

// The event that the numbers tell of, if they fit together.
impl TryFrom<EventNumbers> for Event {
    type Error = Decline;

    ghost try_from_gives = { λ n r. r ≡ event_of n.kind n.job n.state n.reason n.count n.accepting };

    fn try_from(numbers: EventNumbers) -> Result<Event, Decline> {
        match Kind::try_from(numbers.kind) {
            Err(_) => Err(Decline::UnknownKind),
            Ok(Kind::Printer(kind)) => numbers.printer_event(kind),
            Ok(Kind::Job(kind)) => numbers.job_event(kind),
        }
    }
}

impl Event {
    pub fn kind(self) -> Kind
        ensures { result ≡ event_kind self }
    {
        match self {
            Event::Printer(e) => Kind::Printer(e.kind),
            Event::Job(e) => Kind::Job(e.kind),
        }
    }
}

// The bounds of what an event's numbers may be, on examples.
pub fn events_stand()
    ensures { EventExamples }
{}
