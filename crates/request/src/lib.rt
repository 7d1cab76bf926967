// Reading a Get-Notifications request (RFC 3996): its rules, and what it asks for.
#![tactic(auto)]

ghost use Rattle.std.specs.Prelude.{◌≡◌};
ghost use Rattle.request.specs.declared.Fault.TheVariants.{Attributes, Bytes, TooManyIds};

use ipp::values::Values;
use ipp::{attributes, bytes};
use std::error::Error;
use std::fmt;
use wanted::{TooMany, Wanted};

pub mod answer;
pub mod checks;
pub mod reading;
pub mod wanted;

// Why a request is refused: a fault of a layer below, or the first rule that does not hold.
#[derive(Clone, Copy, Debug, PartialEq, Eq)]
pub enum Fault {
    // no whole header of eight bytes
    Bytes(bytes::Fault),
    // an item that is not well-formed
    Attributes(attributes::Fault),
    // the major version is neither 1 nor 2
    Version,
    // the operation is not Get-Notifications
    Operation,
    // the request-id is not 1 to 0x7FFFFFFF
    RequestId,
    // bytes behind the end
    End,
    // the operation group 0x01 is not the first, or stands twice
    OperationGroup,
    // a name stands twice in the operation group
    NameTwice,
    // attributes-charset is not the first, or attributes-natural-language not the second
    FirstTwo,
    // no printer-uri
    PrinterUri,
    // no notify-subscription-ids, a value of it that is not from 1 on, or one that stands twice
    SubscriptionIds,
    // a value of notify-sequence-numbers that is not from 1 on
    SequenceNumbers,
    // notify-wait is no boolean
    Wait,
    // a further value where only one may stand, or with another tag than an integer's
    FurtherValues,
    // another charset than utf-8
    Charset,
    // more than eight ids
    TooManyIds,
}

// Written out, as the like of the other errors: a derived one would not say which fault it gives.
impl From<bytes::Fault> for Fault {
    ghost from_gives = { λ e r. r ≡ Bytes e };

    fn from(e: bytes::Fault) -> Fault {
        Fault::Bytes(e)
    }
}

impl From<attributes::Fault> for Fault {
    ghost from_gives = { λ e r. r ≡ Attributes e };

    fn from(e: attributes::Fault) -> Fault {
        Fault::Attributes(e)
    }
}

impl From<TooMany> for Fault {
    ghost from_gives = { λ _ r. r ≡ TooManyIds };

    fn from(_: TooMany) -> Fault {
        Fault::TooManyIds
    }
}

impl fmt::Display for Fault {
    fn fmt<W: fmt::Write>(&self, f: &mut fmt::Formatter<W>) -> fmt::Result {
        match self {
            Fault::Bytes(e) => e.fmt(f),
            Fault::Attributes(e) => e.fmt(f),
            Fault::Version => f.write_str("the major version is neither 1 nor 2"),
            Fault::Operation => f.write_str("the operation is not Get-Notifications"),
            Fault::RequestId => f.write_str("the request-id is out of range"),
            Fault::End => f.write_str("bytes stand behind the end"),
            Fault::OperationGroup => f.write_str(
                "the operation group is not the first, or twice there",
            ),
            Fault::NameTwice => f.write_str("a name stands twice in the operation group"),
            Fault::FirstTwo => f.write_str("charset and natural language do not come first"),
            Fault::PrinterUri => f.write_str("no printer-uri"),
            Fault::SubscriptionIds => f.write_str("the subscription ids are wrong"),
            Fault::SequenceNumbers => f.write_str("the sequence numbers are wrong"),
            Fault::Wait => f.write_str("notify-wait is no boolean"),
            Fault::FurtherValues => f.write_str("a further value stands where none may"),
            Fault::Charset => f.write_str("the charset is not utf-8"),
            Fault::TooManyIds => f.write_str("more than eight subscription ids"),
        }
    }
}

impl Error for Fault {}

// The first eight bytes of a request.
#[derive(Clone, Copy, Debug, PartialEq, Eq)]
pub struct Header {
    pub major: u8,
    pub minor: u8,
    pub operation: u16,
    pub id: u32,
}

// The values of the operation group's attributes that the rules name; none where there is no such attribute.
#[derive(Clone, Copy, Debug)]
pub struct Operands<'a> {
    pub charset: Values<'a>,
    pub language: Values<'a>,
    pub uri: Values<'a>,
    pub ids: Values<'a>,
    pub numbers: Values<'a>,
    pub wait: Values<'a>,
}

// A request that may be answered: what it asks for, and whether it would wait for notices.
#[derive(Clone, Copy, Debug)]
pub struct Request {
    pub header: Header,
    pub wanted: Wanted,
    pub wait: bool,
}
