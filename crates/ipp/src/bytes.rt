// The lowest layer: a run of bytes behind its length.
ghost use Rattle.std.specs.Prelude.{◌≡◌};
ghost use Rattle.ipp.specs.Bytes.{part_of, counted_at};

use std::error::Error;
use std::fmt;

#[derive(Clone, Copy, Debug, PartialEq, Eq)]
pub enum Fault {
    // the request ends before the bytes that it announces
    CutShort,
}

impl fmt::Display for Fault {
    fn fmt<W: fmt::Write>(&self, f: &mut fmt::Formatter<W>) -> fmt::Result {
        f.write_str("the request ends before the bytes that it announces")
    }
}

impl Error for Fault {}

// A part of the request: its bytes, and the place of the first of them in the request.
#[derive(Clone, Copy, Debug, PartialEq, Eq)]
pub struct Part<'a> {
    pub bytes: &'a [u8],
    pub place: usize,
}

// Two bytes of length at `at`, and then so many bytes; with the place past them. By bytes and place:
// the iterators over items, attributes and values are made of this and of `next_item`.
pub fn counted<'a>(src: &'a [u8], at: usize) -> Result<(Part<'a>, usize), Fault>
    ensures { part_of result ≡ counted_at src.now at }
{
    let Some([high, low, behind @ ..]) = src.get(at..) else {
        return Err(Fault::CutShort);
    };
    let n = usize::from(u16::from_be_bytes([*high, *low]));
    let bytes = behind.get(..n).ok_or(Fault::CutShort)?;
    let place = at + 2;
    Ok((Part { bytes, place }, place + n))
}
