// What a request asks for: at most eight subscriptions.
ghost use Rattle.std.specs.Prelude.{◌≡◌, ◌≤◌, length};

use std::error::Error;
use std::fmt;

pub mod list;

// No place is left: eight subscriptions are asked for.
#[derive(Clone, Copy, Debug, PartialEq, Eq)]
pub struct TooMany;

impl fmt::Display for TooMany {
    fn fmt<W: fmt::Write>(&self, f: &mut fmt::Formatter<W>) -> fmt::Result {
        f.write_str("more than eight subscriptions are asked for")
    }
}

impl Error for TooMany {}

// A subscription that is asked for, and the lowest number wanted of its notices.
#[derive(Clone, Copy, Debug, PartialEq, Eq)]
pub struct Asked {
    pub id: u32,
    pub lowest: u32,
}

pub const MOST: usize = 8;

// The first `len` of the places are in use. An array with its length: a request is copied, and takes no memory of the heap.
#[derive(Clone, Copy, Debug)]
pub struct Wanted {
    places: [Asked; MOST],
    len: usize,
    ghost few: { len ≤ 8 },
    ghost whole: { length places ≡ 8 },
}
