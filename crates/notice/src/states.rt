// The states of a job and of the printer (RFC 2911), with their numbers and keywords.
ghost use Rattle.std.specs.Prelude.{◌≡◌, Some};
ghost use Rattle.notice.specs.Tables.{read_by};
ghost use Rattle.notice.specs.States.{
  job_state_number,
  job_state_of_number,
  job_state_keyword,
  printer_state_number,
  printer_state_of_number,
  printer_state_keyword,
  StateNumbers,
};

use crate::numbers::UnknownNumber;
use std::fmt;

#[derive(Clone, Copy, Debug, PartialEq, Eq)]
pub enum JobState {
    Pending = 3,
    PendingHeld = 4,
    Processing = 5,
    ProcessingStopped = 6,
    Canceled = 7,
    Aborted = 8,
    Completed = 9,
}

impl From<JobState> for u32 {
    ghost from_gives = { λ s n. n ≡ job_state_number s };

    fn from(state: JobState) -> u32 {
        state as u32
    }
}

// A match for each type: a list of its cases and a search in it would be no shorter.
impl TryFrom<u32> for JobState {
    type Error = UnknownNumber;

    ghost try_from_gives = { λ n r. r ≡ read_by job_state_of_number n };

    fn try_from(n: u32) -> Result<JobState, UnknownNumber> {
        match n {
            3 => Ok(JobState::Pending),
            4 => Ok(JobState::PendingHeld),
            5 => Ok(JobState::Processing),
            6 => Ok(JobState::ProcessingStopped),
            7 => Ok(JobState::Canceled),
            8 => Ok(JobState::Aborted),
            9 => Ok(JobState::Completed),
            _ => Err(UnknownNumber(n)),
        }
    }
}

impl JobState {
    pub fn keyword(self) -> &'static str
        ensures { result.now ≡ job_state_keyword self }
    {
        match self {
            JobState::Pending => "pending",
            JobState::PendingHeld => "pending-held",
            JobState::Processing => "processing",
            JobState::ProcessingStopped => "processing-stopped",
            JobState::Canceled => "canceled",
            JobState::Aborted => "aborted",
            JobState::Completed => "completed",
        }
    }
}

// One for each type: no impl of Display can stand for every type that has a keyword.
impl fmt::Display for JobState {
    ghost output = { λ s. Some (job_state_keyword s) };

    fn fmt<W: fmt::Write>(&self, f: &mut fmt::Formatter<W>) -> fmt::Result {
        f.write_str(self.keyword())
    }
}

#[derive(Clone, Copy, Debug, PartialEq, Eq)]
pub enum PrinterState {
    Idle = 3,
    Processing = 4,
    Stopped = 5,
}

impl From<PrinterState> for u32 {
    ghost from_gives = { λ s n. n ≡ printer_state_number s };

    fn from(state: PrinterState) -> u32 {
        state as u32
    }
}

impl TryFrom<u32> for PrinterState {
    type Error = UnknownNumber;

    ghost try_from_gives = { λ n r. r ≡ read_by printer_state_of_number n };

    fn try_from(n: u32) -> Result<PrinterState, UnknownNumber> {
        match n {
            3 => Ok(PrinterState::Idle),
            4 => Ok(PrinterState::Processing),
            5 => Ok(PrinterState::Stopped),
            _ => Err(UnknownNumber(n)),
        }
    }
}

impl PrinterState {
    pub fn keyword(self) -> &'static str
        ensures { result.now ≡ printer_state_keyword self }
    {
        match self {
            PrinterState::Idle => "idle",
            PrinterState::Processing => "processing",
            PrinterState::Stopped => "stopped",
        }
    }
}

impl fmt::Display for PrinterState {
    ghost output = { λ s. Some (printer_state_keyword s) };

    fn fmt<W: fmt::Write>(&self, f: &mut fmt::Formatter<W>) -> fmt::Result {
        f.write_str(self.keyword())
    }
}

// A state and its number stand for each other.
pub fn state_numbers_stand()
    ensures { StateNumbers }
{}
