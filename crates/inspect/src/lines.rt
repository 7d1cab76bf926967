// What a line of the input comes to.
ghost use Rattle.std.specs.Prelude.{◌≡◌, Some, MatchResult};
ghost use Rattle.request.specs.Request.{wish_in};
ghost use Rattle.inspect.specs.declared.lines.LineFault.TheVariants.{Hex, Refused};
ghost use Rattle.inspect.specs.Lines.{ComesTo, asks, fault_said, outcome_of, request_outcome};

use hex_text::{HexFault, decode};
use notice::{Decline, Status};
use request::Request;
use request::answer::read;
use std::alloc::Global;
use std::error::Error;
use std::fmt;

// A request has at least a header, and at most so many bytes.
pub const SHORTEST: usize = 8;

pub const LONGEST: usize = 16384;

// Why a line gives no request.
#[derive(Clone, Copy, Debug, PartialEq, Eq)]
pub enum LineFault {
    Hex(HexFault),
    // Fewer bytes than a request has, or more.
    Size,
    Refused(Status),
}

impl From<HexFault> for LineFault {
    ghost from_gives = { λ h f. f ≡ Hex h };

    fn from(hex: HexFault) -> LineFault {
        LineFault::Hex(hex)
    }
}

impl From<Status> for LineFault {
    ghost from_gives = { λ s f. f ≡ Refused s };

    fn from(status: Status) -> LineFault {
        LineFault::Refused(status)
    }
}

impl fmt::Display for LineFault {
    fn fmt<W: fmt::Write>(&self, f: &mut fmt::Formatter<W>) -> fmt::Result {
        match self {
            LineFault::Hex(fault) => write!(f, "{fault}"),
            LineFault::Size => write!(
                f,
                "{}, a request has {SHORTEST} to {LONGEST} bytes",
                Decline::RequestSize
            ),
            LineFault::Refused(status) => {
                write!(f, "status 0x{:04X} {status}", u16::from(*status))
            }
        }
    }
}

impl Error for LineFault {}

// What the bytes ask for as a request.
fn examine_bytes(bytes: &[u8]) -> Result<Request, LineFault>
    ensures { MatchResult result (λ r. asks (wish_in r) ≡ request_outcome bytes.now) (λ f. fault_said f ≡ Some (request_outcome bytes.now)) }
{
    if bytes.len() < SHORTEST || bytes.len() > LONGEST {
        return Err(LineFault::Size);
    }
    Ok(read(bytes)?)
}

// What a line asks for that begins and ends with no space: nothing, where it is blank or a comment.
pub fn examine_line(heap: Global, line: &[u8]) -> Result<Option<Request>, LineFault>
    ensures { ComesTo (outcome_of line.now) result }
{
    if let [] | [b'#', ..] = line {
        return Ok(None);
    }
    let bytes = decode(heap, line)?;
    let request = examine_bytes(bytes.as_slice())?;
    Ok(Some(request))
}
