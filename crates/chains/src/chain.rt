// A chain of places.
ghost use Rattle.std.specs.Prelude.{◌≡◌, ◌+◌, ◌^◌, ◌<◌};
ghost use Rattle.chains.specs.Links.{shorter, longer};

// Its first place and its last, by their numbers in the table, and how many places it has. The
// default has none: first and last mean nothing there, as the count says, so they are no Options.
#[derive(Clone, Copy, Default)]
pub struct Chain {
    pub first: u32,
    pub last: u32,
    pub count: u32,
}

impl Chain {
    // The chain without its first place; `next` is the place behind that.
    pub fn shorter(self, next: u32) -> Chain
        requires { 0 < self.count }
        ensures { result ≡ shorter self next }
    {
        Chain {
            first: next,
            last: self.last,
            count: self.count - 1,
        }
    }

    // The chain with one place more at its end.
    pub fn longer(self, place: u32) -> Chain
        requires { self.count + 1 < 2 ^ 32 }
        ensures { result ≡ longer self place }
    {
        let first = if self.count == 0 { place } else { self.first };
        Chain {
            first,
            last: place,
            count: self.count + 1,
        }
    }
}
