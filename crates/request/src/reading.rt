// A whole request: the header, the items, the rules, and what it asks for.
ghost use Rattle.std.specs.Prelude.{◌≡◌};
ghost use Rattle.ipp.specs.Attributes.{attributes_in, values_in};
ghost use Rattle.ipp.specs.Walk.{items_in};
ghost use Rattle.request.specs.Request.{asked_at, asked_of, group_asks, group_in, header_checked, header_of, items_ask, operation_group, request_of, told, utf_8, waiting, wish_of};
ghost use Rattle.request.specs.Rules.{operands_in};

use crate::checks::check_group;
use crate::wanted::{Asked, Wanted};
use crate::{Fault, Header, Operands, Request};
use ipp::attributes::Attributes;
use ipp::bytes;
use ipp::items::{Items, check_items};
use ipp::values::{Values, boolean, number};

pub const GET_NOTIFICATIONS: u16 = 0x001c;

pub const HEADER_LENGTH: usize = 8;

pub const OPERATION_GROUP: u8 = 0x01;

pub const LAST_REQUEST_ID: u32 = 0x7fff_ffff;

// The header, if the request has eight bytes or more.
pub fn read_header(src: &[u8]) -> Result<Header, bytes::Fault>
    ensures { result ≡ header_of src.now }
{
    match src {
        [a, b, c, d, e, f, g, h, ..] => Ok(Header {
            major: *a,
            minor: *b,
            operation: u16::from_be_bytes([*c, *d]),
            id: u32::from_be_bytes([*e, *f, *g, *h]),
        }),
        _ => Err(bytes::Fault::CutShort),
    }
}

// The header, if its version, operation and request-id are right.
pub fn check_header(header: Header) -> Result<Header, Fault>
    ensures { result ≡ header_checked header }
{
    if !matches!(header.major, 1 | 2) {
        return Err(Fault::Version);
    }
    if header.operation != GET_NOTIFICATIONS {
        return Err(Fault::Operation);
    }
    if header.id < 1 || header.id > LAST_REQUEST_ID {
        return Err(Fault::RequestId);
    }
    Ok(header)
}

// The attributes of the operation group, if that group is the first and stands once.
pub fn find_operation_group<'a>(mut items: Items<'a>) -> Result<Attributes<'a>, Fault>
    ensures { group_in result ≡ operation_group (items_in items.entry) }
{
    let Some(first) = items.next() else {
        return Err(Fault::OperationGroup);
    };
    if !first.is_mark(OPERATION_GROUP) || items.has_group(OPERATION_GROUP) {
        return Err(Fault::OperationGroup);
    }
    Ok(Attributes::new(items))
}

// The ids, each with its lowest wanted number, if there are at most eight. Where no number is left, it is 1.
pub fn gather(ids: Values, mut numbers: Values) -> Result<Wanted, Fault>
    ensures { asked_at result ≡ asked_of (values_in ids.entry) (values_in numbers.entry) }
{
    let mut wanted = Wanted::new();
    for value in ids {
        let lowest = numbers.next().map_or(1, |low| number(low.bytes));
        let id = number(value.bytes);
        wanted.push(Asked { id, lowest })?;
    }
    Ok(wanted)
}

// Whether the charset is utf-8, byte for byte.
fn is_utf_8(charset: Values) -> bool
    ensures { result ≡ utf_8 (values_in charset.entry) }
{
    charset
        .first()
        .is_some_and(|value| value.bytes == b"utf-8".as_slice())
}

// Whether notify-wait is there and true.
fn is_waiting(wait: Values) -> bool
    ensures { result ≡ waiting (values_in wait.entry) }
{
    wait.first()
        .is_some_and(|value| boolean(value.bytes) == Ok(true))
}

// What the operation group's attributes ask for.
pub fn read_operands(header: Header, named: Operands) -> Result<Request, Fault>
    ensures { told result ≡ wish_of header (operands_in named.entry) }
{
    if !is_utf_8(named.charset) {
        return Err(Fault::Charset);
    }
    let wanted = gather(named.ids, named.numbers)?;
    Ok(Request {
        header,
        wanted,
        wait: is_waiting(named.wait),
    })
}

// What the operation group asks for, or the first rule that it breaks.
pub fn read_group(header: Header, group: Attributes) -> Result<Request, Fault>
    ensures { told result ≡ group_asks header (attributes_in group.entry) }
{
    read_operands(header, check_group(group)?)
}

// What the items behind the header ask for, or the first rule that they break.
pub fn read_items(src: &[u8], header: Header) -> Result<Request, Fault>
    ensures { told result ≡ items_ask src.now header }
{
    let end = check_items(src, HEADER_LENGTH)?;
    if end != src.len() {
        return Err(Fault::End);
    }
    let group = find_operation_group(Items::new(src, HEADER_LENGTH))?;
    read_group(header, group)
}

// What the request asks for, or the first rule that it breaks.
pub fn read_request(src: &[u8]) -> Result<Request, Fault>
    ensures { told result ≡ request_of src.now }
{
    let header = check_header(read_header(src)?)?;
    read_items(src, header)
}
