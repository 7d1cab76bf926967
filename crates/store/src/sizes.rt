// The sizes that a store is made with: one out of range is made the nearest in it.
ghost use Rattle.std.specs.Prelude.{◌≡◌};
ghost use Rattle.store.specs.Sizes.{size_range, size_made};

// A store's own three: how many slots, the reserve of each, and the spare of all of them.
#[derive(Clone, Copy, Debug, PartialEq, Eq)]
pub struct Sizes {
    pub slots: usize,
    pub reserve: usize,
    pub spare: usize,
}

#[derive(Clone, Copy, Debug, PartialEq, Eq)]
pub enum Size {
    Slots,
    Reserve,
    Spare,
    // how many notices a shelf holds itself
    Shelf,
}

impl Size {
    // The least and the most.
    fn range(self) -> (usize, usize)
        ensures { result ≡ size_range self }
    {
        match self {
            Size::Slots => (1, 64),
            Size::Reserve => (1, 9),
            Size::Spare => (0, 32),
            Size::Shelf => (1, 16),
        }
    }

    // The number in range that is nearest to `n`.
    pub fn nearest(self, n: usize) -> usize
        ensures { result ≡ size_made self n }
    {
        let (least, most) = self.range();
        n.clamp(least, most)
    }
}
