// The kinds of event, with the numbers 1 to 8 and their keywords.
ghost use Rattle.std.specs.Prelude.{◌≡◌, Some};
ghost use Rattle.notice.specs.Tables.{read_by};
ghost use Rattle.notice.specs.Kinds.{printer_kind_keyword, job_kind_keyword, kind_keyword};
ghost use Rattle.notice.specs.Kinds.{kind_number, kind_of_number, kind_broader, of_job, KindNumbers};

use crate::numbers::UnknownNumber;
use std::fmt;

#[derive(Clone, Copy, Debug, PartialEq, Eq)]
pub enum PrinterKind {
    StateChanged = 1,
    Stopped = 2,
    ConfigChanged = 3,
}

#[derive(Clone, Copy, Debug, PartialEq, Eq)]
pub enum JobKind {
    StateChanged = 4,
    Created = 5,
    Completed = 6,
    Stopped = 7,
    Progress = 8,
}

// An event is of the printer or of a job.
#[derive(Clone, Copy, Debug, PartialEq, Eq)]
pub enum Kind {
    Printer(PrinterKind),
    Job(JobKind),
}

impl From<Kind> for u32 {
    ghost from_gives = { λ k n. n ≡ kind_number k };

    fn from(kind: Kind) -> u32 {
        match kind {
            Kind::Printer(k) => k as u32,
            Kind::Job(k) => k as u32,
        }
    }
}

// A match for each type: a list of its cases and a search in it would be no shorter.
impl TryFrom<u32> for Kind {
    type Error = UnknownNumber;

    ghost try_from_gives = { λ n r. r ≡ read_by kind_of_number n };

    fn try_from(n: u32) -> Result<Kind, UnknownNumber> {
        match n {
            1 => Ok(Kind::Printer(PrinterKind::StateChanged)),
            2 => Ok(Kind::Printer(PrinterKind::Stopped)),
            3 => Ok(Kind::Printer(PrinterKind::ConfigChanged)),
            4 => Ok(Kind::Job(JobKind::StateChanged)),
            5 => Ok(Kind::Job(JobKind::Created)),
            6 => Ok(Kind::Job(JobKind::Completed)),
            7 => Ok(Kind::Job(JobKind::Stopped)),
            8 => Ok(Kind::Job(JobKind::Progress)),
            _ => Err(UnknownNumber(n)),
        }
    }
}

impl PrinterKind {
    pub fn keyword(self) -> &'static str
        ensures { result.now ≡ printer_kind_keyword self }
    {
        match self {
            PrinterKind::StateChanged => "printer-state-changed",
            PrinterKind::Stopped => "printer-stopped",
            PrinterKind::ConfigChanged => "printer-config-changed",
        }
    }
}

impl JobKind {
    pub fn keyword(self) -> &'static str
        ensures { result.now ≡ job_kind_keyword self }
    {
        match self {
            JobKind::StateChanged => "job-state-changed",
            JobKind::Created => "job-created",
            JobKind::Completed => "job-completed",
            JobKind::Stopped => "job-stopped",
            JobKind::Progress => "job-progress",
        }
    }
}

impl Kind {
    pub fn keyword(self) -> &'static str
        ensures { result.now ≡ kind_keyword self }
    {
        match self {
            Kind::Printer(k) => k.keyword(),
            Kind::Job(k) => k.keyword(),
        }
    }

    // The kind of which this one is a special case.
    pub fn broader(self) -> Option<Kind>
        ensures { result ≡ kind_broader self }
    {
        match self {
            Kind::Printer(PrinterKind::Stopped) => Some(Kind::Printer(PrinterKind::StateChanged)),
            Kind::Job(JobKind::Created | JobKind::Completed | JobKind::Stopped) => {
                Some(Kind::Job(JobKind::StateChanged))
            }
            _ => None,
        }
    }

    pub fn is_job(self) -> bool
        ensures { result ≡ of_job self }
    {
        matches!(self, Kind::Job(_))
    }
}

// One for each type: no impl of Display can stand for every type that has a keyword.
impl fmt::Display for PrinterKind {
    ghost output = { λ k. Some (printer_kind_keyword k) };

    fn fmt<W: fmt::Write>(&self, f: &mut fmt::Formatter<W>) -> fmt::Result {
        f.write_str(self.keyword())
    }
}

impl fmt::Display for JobKind {
    ghost output = { λ k. Some (job_kind_keyword k) };

    fn fmt<W: fmt::Write>(&self, f: &mut fmt::Formatter<W>) -> fmt::Result {
        f.write_str(self.keyword())
    }
}

impl fmt::Display for Kind {
    ghost output = { λ k. Some (kind_keyword k) };

    fn fmt<W: fmt::Write>(&self, f: &mut fmt::Formatter<W>) -> fmt::Result {
        f.write_str(self.keyword())
    }
}

// A kind and its number stand for each other.
pub fn kind_numbers_stand()
    ensures { KindNumbers }
{}
