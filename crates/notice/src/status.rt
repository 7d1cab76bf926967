// The IPP status codes that the hub answers with (RFC 2911, RFC 3995, RFC 3996).
ghost use Rattle.std.specs.Prelude.{◌≡◌, Some};
ghost use Rattle.notice.specs.Tables.{read_by};
ghost use Rattle.notice.specs.Statuses.{status_code, status_of_code, status_keyword, StatusCodes};

use crate::numbers::UnknownNumber;
use std::fmt;

#[derive(Clone, Copy, Debug, PartialEq, Eq)]
pub enum Status {
    Successful = 0x0000,
    EventsComplete = 0x0007,
    BadRequest = 0x0400,
    NotFound = 0x0406,
    NotSupported = 0x040b,
    CharsetNotSupported = 0x040d,
    OperationNotSupported = 0x0501,
    VersionNotSupported = 0x0503,
    Busy = 0x0507,
}

impl From<Status> for u16 {
    ghost from_gives = { λ s n. n ≡ status_code s };

    fn from(status: Status) -> u16 {
        status as u16
    }
}

// A match for each type: a list of its cases and a search in it would be no shorter.
impl TryFrom<u16> for Status {
    type Error = UnknownNumber;

    ghost try_from_gives = { λ n r. r ≡ read_by status_of_code n };

    fn try_from(code: u16) -> Result<Status, UnknownNumber> {
        match code {
            0x0000 => Ok(Status::Successful),
            0x0007 => Ok(Status::EventsComplete),
            0x0400 => Ok(Status::BadRequest),
            0x0406 => Ok(Status::NotFound),
            0x040b => Ok(Status::NotSupported),
            0x040d => Ok(Status::CharsetNotSupported),
            0x0501 => Ok(Status::OperationNotSupported),
            0x0503 => Ok(Status::VersionNotSupported),
            0x0507 => Ok(Status::Busy),
            _ => Err(UnknownNumber(u32::from(code))),
        }
    }
}

impl Status {
    pub fn keyword(self) -> &'static str
        ensures { result.now ≡ status_keyword self }
    {
        match self {
            Status::Successful => "successful-ok",
            Status::EventsComplete => "successful-ok-events-complete",
            Status::BadRequest => "client-error-bad-request",
            Status::NotFound => "client-error-not-found",
            Status::NotSupported => "client-error-attributes-or-values-not-supported",
            Status::CharsetNotSupported => "client-error-charset-not-supported",
            Status::OperationNotSupported => "server-error-operation-not-supported",
            Status::VersionNotSupported => "server-error-version-not-supported",
            Status::Busy => "server-error-busy",
        }
    }
}

// One for each type: no impl of Display can stand for every type that has a keyword.
impl fmt::Display for Status {
    ghost output = { λ s. Some (status_keyword s) };

    fn fmt<W: fmt::Write>(&self, f: &mut fmt::Formatter<W>) -> fmt::Result {
        f.write_str(self.keyword())
    }
}

// A status and its code stand for each other.
pub fn status_codes_stand()
    ensures { StatusCodes }
{}
