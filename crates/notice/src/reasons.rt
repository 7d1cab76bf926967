// The reasons of a state, of a job and of the printer, with their numbers and keywords.
ghost use Rattle.std.specs.Prelude.{◌≡◌, Some};
ghost use Rattle.notice.specs.Tables.{read_by};
ghost use Rattle.notice.specs.Reasons.{
  job_reason_number,
  job_reason_of_number,
  job_reason_keyword,
  printer_reason_number,
  printer_reason_of_number,
  printer_reason_keyword,
  ReasonNumbers,
};

use crate::numbers::UnknownNumber;
use std::fmt;

#[derive(Clone, Copy, Debug, PartialEq, Eq)]
pub enum JobReason {
    None = 0,
    Incoming = 1,
    Printing = 2,
    CompletedSuccessfully = 3,
    CanceledByUser = 4,
    AbortedBySystem = 5,
}

impl From<JobReason> for u32 {
    ghost from_gives = { λ r n. n ≡ job_reason_number r };

    fn from(reason: JobReason) -> u32 {
        reason as u32
    }
}

// A match for each type: a list of its cases and a search in it would be no shorter.
impl TryFrom<u32> for JobReason {
    type Error = UnknownNumber;

    ghost try_from_gives = { λ n r. r ≡ read_by job_reason_of_number n };

    fn try_from(n: u32) -> Result<JobReason, UnknownNumber> {
        match n {
            0 => Ok(JobReason::None),
            1 => Ok(JobReason::Incoming),
            2 => Ok(JobReason::Printing),
            3 => Ok(JobReason::CompletedSuccessfully),
            4 => Ok(JobReason::CanceledByUser),
            5 => Ok(JobReason::AbortedBySystem),
            _ => Err(UnknownNumber(n)),
        }
    }
}

impl JobReason {
    pub fn keyword(self) -> &'static str
        ensures { result.now ≡ job_reason_keyword self }
    {
        match self {
            JobReason::None => "none",
            JobReason::Incoming => "job-incoming",
            JobReason::Printing => "job-printing",
            JobReason::CompletedSuccessfully => "job-completed-successfully",
            JobReason::CanceledByUser => "job-canceled-by-user",
            JobReason::AbortedBySystem => "aborted-by-system",
        }
    }
}

// One for each type: no impl of Display can stand for every type that has a keyword.
impl fmt::Display for JobReason {
    ghost output = { λ r. Some (job_reason_keyword r) };

    fn fmt<W: fmt::Write>(&self, f: &mut fmt::Formatter<W>) -> fmt::Result {
        f.write_str(self.keyword())
    }
}

#[derive(Clone, Copy, Debug, PartialEq, Eq)]
pub enum PrinterReason {
    None = 0,
    Paused = 1,
    MediaEmpty = 2,
    MediaJam = 3,
    DoorOpen = 4,
    TonerEmpty = 5,
}

impl From<PrinterReason> for u32 {
    ghost from_gives = { λ r n. n ≡ printer_reason_number r };

    fn from(reason: PrinterReason) -> u32 {
        reason as u32
    }
}

impl TryFrom<u32> for PrinterReason {
    type Error = UnknownNumber;

    ghost try_from_gives = { λ n r. r ≡ read_by printer_reason_of_number n };

    fn try_from(n: u32) -> Result<PrinterReason, UnknownNumber> {
        match n {
            0 => Ok(PrinterReason::None),
            1 => Ok(PrinterReason::Paused),
            2 => Ok(PrinterReason::MediaEmpty),
            3 => Ok(PrinterReason::MediaJam),
            4 => Ok(PrinterReason::DoorOpen),
            5 => Ok(PrinterReason::TonerEmpty),
            _ => Err(UnknownNumber(n)),
        }
    }
}

impl PrinterReason {
    pub fn keyword(self) -> &'static str
        ensures { result.now ≡ printer_reason_keyword self }
    {
        match self {
            PrinterReason::None => "none",
            PrinterReason::Paused => "paused",
            PrinterReason::MediaEmpty => "media-empty",
            PrinterReason::MediaJam => "media-jam",
            PrinterReason::DoorOpen => "door-open",
            PrinterReason::TonerEmpty => "toner-empty",
        }
    }
}

impl fmt::Display for PrinterReason {
    ghost output = { λ r. Some (printer_reason_keyword r) };

    fn fmt<W: fmt::Write>(&self, f: &mut fmt::Formatter<W>) -> fmt::Result {
        f.write_str(self.keyword())
    }
}

// A reason and its number stand for each other.
pub fn reason_numbers_stand()
    ensures { ReasonNumbers }
{}
