// What a print hub tells its subscribers: kinds of event, states, reasons, events and notices,
// and the numbers that it answers a call or a request with.
#![tactic(auto)]

pub mod decline;
pub mod event;
pub mod kinds;
pub mod numbers;
pub mod reasons;
pub mod sets;
pub mod states;
pub mod status;

pub use decline::Decline;
pub use event::{Event, EventNumbers, JobEvent, Notice, PrinterEvent};
pub use kinds::{JobKind, Kind, PrinterKind};
pub use numbers::UnknownNumber;
pub use reasons::{JobReason, PrinterReason};
pub use sets::KindSet;
pub use states::{JobState, PrinterState};
pub use status::Status;
