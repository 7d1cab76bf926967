// The store and what always holds of it.
ghost use Rattle.std.specs.Prelude.{◌≡◌, ◌+◌, ◌-◌, ◌*◌, ◌<◌, ◌≤◌, length, vec_len, sum_by};
ghost use Rattle.store.specs.Meaning.{in_use};
ghost use Rattle.chains.specs.Links.{Inside, Apart, Once, Ends};
ghost use Rattle.chains.specs.Held.{links_of, chain_lists};

use crate::chain::Chain;
use crate::place::Place;

mod makes;
mod methods;
mod moves;

// Chain 0 is that of the free places, and chain i + 1 that of slot i. `used` is the spare in use.
// One table, taken at opening, whose places are linked by their numbers: put and drop take the same
// time however many places there are, and no memory. What always holds is said by ghost fields, and
// not by a model in the place of the fields, since the laws of a store need it of every value.
#[derive(Drop)]
pub struct Chains {
    places: Vec<Place>,
    chains: Vec<Chain>,
    used: usize,
    reserve: usize,
    spare: usize,
    ghost inside: { Inside (links_of places.items) chains.items },
    ghost apart: { Apart (links_of places.items) chains.items },
    ghost once: { Once (links_of places.items) chains.items },
    ghost ends: { Ends (links_of places.items) chains.items },
    ghost whole: { sum_by (λ c. c.count) chains.items ≡ vec_len places },
    ghost sized: { vec_len places ≡ (vec_len chains - 1) * reserve + spare },
    ghost tally: { used ≡ in_use reserve (chain_lists places.items chains.items) },
    ghost within: { used ≤ spare },
    ghost counted: { vec_len chains ≡ length (chain_lists places.items chains.items) + 1 },
    ghost few: { vec_len chains ≤ 65 },
    ghost small: { reserve ≤ 9 },
    ghost scarce: { spare ≤ 32 },
}
