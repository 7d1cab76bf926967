// The numbers that a refused call answers.
ghost use Rattle.std.specs.Prelude.{◌≡◌};
ghost use Rattle.notice.specs.Tables.{read_by};
ghost use Rattle.notice.specs.Declines.{decline_number, decline_of_number, DeclineNumbers};

use crate::numbers::UnknownNumber;
use std::error::Error;
use std::fmt;

#[derive(Clone, Copy, Debug, PartialEq, Eq)]
pub enum Decline {
    // Open: a figure is out of its range, or the accounts times their subscriptions are over 64.
    Figures = 11,
    // Open: the longest interval reaches the life of an event.
    Interval = 12,
    // Open: the printer's URI is not as it has to be.
    Uri = 13,
    // Open: the store is not of the size that the figures ask for.
    StoreSize = 14,
    // A reading of the clock is over 2,000,000,000.
    Reading = 21,
    // No account has this number.
    Account = 22,
    // Subscribe: the set of kinds is 0 or over 255.
    Kinds = 23,
    // Subscribe: a lease over 67,108,863, a job over 2,147,483,647, or both given.
    LeaseOrJob = 24,
    // Subscribe: a seller asks for job kinds of the whole printer.
    JobKinds = 25,
    // Subscribe: the account has as many subscriptions as it may.
    TooMany = 26,
    // Subscribe: no number is left for a subscription.
    NoIdLeft = 27,
    // No subscription with this number stands, or the account may not read it.
    NoSubscription = 28,
    // Renew: a job's subscription has no lease.
    JobLease = 29,
    // Event: the kind is not 1 to 8.
    UnknownKind = 31,
    // Event: state, reason, job, count or accepting is not as the kind has it.
    EventDetail = 32,
    // Event: as many events as may be are taken.
    EventsTaken = 33,
    // Request: under 8 or over 16,384 bytes.
    RequestSize = 41,
    // Request: the reply is longer than the buffer.
    ReplyRoom = 42,
}

impl From<Decline> for u32 {
    ghost from_gives = { λ d n. n ≡ decline_number d };

    fn from(decline: Decline) -> u32 {
        decline as u32
    }
}

// A match for each type: a list of its cases and a search in it would be no shorter.
impl TryFrom<u32> for Decline {
    type Error = UnknownNumber;

    ghost try_from_gives = { λ n r. r ≡ read_by decline_of_number n };

    fn try_from(n: u32) -> Result<Decline, UnknownNumber> {
        match n {
            11 => Ok(Decline::Figures),
            12 => Ok(Decline::Interval),
            13 => Ok(Decline::Uri),
            14 => Ok(Decline::StoreSize),
            21 => Ok(Decline::Reading),
            22 => Ok(Decline::Account),
            23 => Ok(Decline::Kinds),
            24 => Ok(Decline::LeaseOrJob),
            25 => Ok(Decline::JobKinds),
            26 => Ok(Decline::TooMany),
            27 => Ok(Decline::NoIdLeft),
            28 => Ok(Decline::NoSubscription),
            29 => Ok(Decline::JobLease),
            31 => Ok(Decline::UnknownKind),
            32 => Ok(Decline::EventDetail),
            33 => Ok(Decline::EventsTaken),
            41 => Ok(Decline::RequestSize),
            42 => Ok(Decline::ReplyRoom),
            _ => Err(UnknownNumber(n)),
        }
    }
}

impl fmt::Display for Decline {
    fn fmt<W: fmt::Write>(&self, f: &mut fmt::Formatter<W>) -> fmt::Result {
        write!(f, "declined {}", u32::from(*self))
    }
}

impl Error for Decline {}

// A decline and its number stand for each other.
pub fn decline_numbers_stand()
    ensures { DeclineNumbers }
{}
