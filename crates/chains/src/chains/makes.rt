// How chains are made: every place is free.
ghost use Rattle.std.specs.Prelude.{◌≡◌, ◌+◌, ◌^◌, ◌<◌, ◌≤◌, [], ◌∷◌, replicate, IfOk};
ghost use Rattle.store.specs.Sizes.{slots_made, reserve_made, spare_made};
ghost use Rattle.chains.specs.Links.{no_chain};
ghost use Rattle.chains.specs.Held.{blank, fresh_places};
ghost use Rattle.chains.specs.Lists.{slot_lists};

use super::Chains;
use crate::chain::Chain;
use crate::place::Place;
use notice::{Event, Kind, Notice, PrinterEvent, PrinterKind, PrinterReason, PrinterState};
use std::alloc::{AllocError, Global};
use std::iter;
use store::{Size, Sizes};

// What stands on a place that was never used. An Option would need an invariant of its own, that
// each place of a slot's chain holds a notice: the chains say so already.
fn blank_notice() -> Notice
    ensures { result ≡ blank }
{
    Notice {
        number: 0,
        second: 0,
        subscribed: Kind::Printer(PrinterKind::StateChanged),
        event: Event::Printer(PrinterEvent {
            kind: PrinterKind::StateChanged,
            state: PrinterState::Idle,
            reason: PrinterReason::None,
            accepting: false,
        }),
    }
}

// So many places, each linked to the one after it.
fn places_in_a_row(heap: Global, n: u32) -> Result<Vec<Place>, AllocError>
    requires { n + 1 < 2 ^ 32 }
    ensures { IfOk result (λ v. v.items ≡ fresh_places n) }
{
    (1..n + 1)
        .map(|next| Place {
            notice: blank_notice(),
            next,
        })
        .collect(heap)
}

// A chain of free places, and then one of none for each slot.
fn chains_of(heap: Global, free: Chain, slots: usize) -> Result<Vec<Chain>, AllocError>
    ensures { IfOk result (λ v. v.items ≡ free ∷ replicate slots no_chain) }
{
    iter::once(free)
        .chain(iter::repeat_n(Chain::default(), slots))
        .collect(heap)
}

impl Chains {
    // Empty chains: 1 to 64 slots, a reserve of 1 to 9 for each and a spare of 0 to 32; a size out
    // of range is made the nearest in it.
    pub fn new(heap: Global, sizes: Sizes) -> Result<Chains, AllocError>
        ensures { IfOk result (λ s. (slot_lists s ≡ replicate (slots_made sizes.slots) []) × (s.reserve ≡ reserve_made sizes.reserve) × (s.spare ≡ spare_made sizes.spare)) }
    {
        Chains::with_sizes(
            heap,
            Sizes {
                slots: Size::Slots.nearest(sizes.slots),
                reserve: Size::Reserve.nearest(sizes.reserve),
                spare: Size::Spare.nearest(sizes.spare),
            },
        )
    }

    fn with_sizes(heap: Global, sizes: Sizes) -> Result<Chains, AllocError>
        requires slots { (1 ≤ sizes.slots) × (sizes.slots ≤ 64) }
        requires reserve { (1 ≤ sizes.reserve) × (sizes.reserve ≤ 9) }
        requires spare { sizes.spare ≤ 32 }
        ensures { IfOk result (λ s. (slot_lists s ≡ replicate sizes.slots []) × (s.reserve ≡ sizes.reserve) × (s.spare ≡ sizes.spare)) }
    {
        let size = (sizes.slots * sizes.reserve + sizes.spare) as u32;
        let places = places_in_a_row(heap, size)?;
        let free = Chain {
            first: 0,
            last: size - 1,
            count: size,
        };
        let chains = chains_of(heap, free, sizes.slots)?;
        Ok(Chains {
            places,
            chains,
            used: 0,
            reserve: sizes.reserve,
            spare: sizes.spare,
        })
    }
}
