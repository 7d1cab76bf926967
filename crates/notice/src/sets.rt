// Sets of kinds: a number in which the kind k is worth 2^(k-1).
ghost use Rattle.std.specs.Prelude.{◌≡◌};
ghost use Rattle.notice.specs.Tables.{read_by};
ghost use Rattle.notice.specs.Sets.{kind_worth, set_of_number, in_set, some_in, subscribed_in, WorthsAddUp};
ghost use Rattle.notice.specs.Kinds.{job_kinds};

use crate::kinds::{JobKind, Kind};
use crate::numbers::UnknownNumber;

#[derive(Clone, Copy, Debug, PartialEq, Eq)]
pub struct KindSet {
    bits: u8,
}

// What the kind adds to the number of a set that it is in.
fn worth(kind: Kind) -> u8
    ensures { result ≡ kind_worth kind }
{
    1 << (u32::from(kind) - 1)
}

impl From<KindSet> for u32 {
    ghost from_gives = { λ s n. n ≡ s.bits };

    fn from(set: KindSet) -> u32 {
        u32::from(set.bits)
    }
}

impl TryFrom<u32> for KindSet {
    type Error = UnknownNumber;

    ghost try_from_gives = { λ n r. r ≡ read_by set_of_number n };

    fn try_from(n: u32) -> Result<KindSet, UnknownNumber> {
        match n {
            1..=255 => Ok(KindSet { bits: n as u8 }),
            _ => Err(UnknownNumber(n)),
        }
    }
}

impl KindSet {
    // By division, as the number of a set is a sum of worths.
    pub fn contains(self, kind: Kind) -> bool
        ensures { result ≡ in_set self.bits kind }
    {
        self.bits / worth(kind) % 2 == 1
    }

    pub fn has_job_kind(self) -> bool
        ensures { result ≡ some_in self.bits job_kinds }
    {
        self.bits >= worth(Kind::Job(JobKind::StateChanged))
    }

    // The kind under which an event of `kind` is told: the kind itself, or else the broader one.
    pub fn subscribed(self, kind: Kind) -> Option<Kind>
        ensures { result ≡ subscribed_in self.bits kind }
    {
        if self.contains(kind) {
            return Some(kind);
        }
        kind.broader().filter(|broader| self.contains(*broader))
    }
}

// The number of a set is the sum of the worths of its kinds.
#[tactic(auto, using(crate::proofs::Worths::added))]
pub fn worths_add_up()
    ensures { WorthsAddUp }
{}
