// What is done with chains, whatever stands on their places.
ghost use Rattle.std.specs.Prelude.{◌≡◌, ℕ, ◌+◌, ◌^◌, ◌<◌, length};
ghost use Rattle.chains.specs.Links.{step, chain_at, moved_links, moved_chains};
ghost use Rattle.chains.specs.Held.{links_of, notices_of};

use crate::chain::Chain;
use crate::place::Place;

// Moves the first place of one chain to the end of another.
pub fn shift(places: &mut [Place], chains: &mut [Chain], from: usize, to: usize)
    requires from { from < length chains.old }
    requires to { to < length chains.old }
    requires some { 0 < (chain_at chains.old from).count }
    requires first { (chain_at chains.old from).first < length places.old }
    requires last { 0 < (chain_at chains.old to).count → (chain_at chains.old to).last < length places.old }
    requires more { (chain_at chains.old to).count + 1 < 2 ^ 32 }
    ensures links { links_of places.new ≡ moved_links (links_of places.old) chains.old from to }
    ensures notices { notices_of places.new ≡ notices_of places.old }
    ensures chains { chains.new ≡ moved_chains (links_of places.old) chains.old from to }
{
    let source = chains[from];
    let target = chains[to];
    let next = places[source.first as usize].next;
    chains[from] = source.shorter(next);
    chains[to] = target.longer(source.first);
    if target.count > 0 {
        places[target.last as usize].next = source.first;
    }
}

// The place that comes `k` links behind another.
#[tactic(auto, using(crate::proofs::Shifted::step_read))]
pub fn follow(places: &[Place], first: u32, k: usize) -> u32
    requires { (m : ℕ) → m < k → step (links_of places.now) first m < length places.now }
    ensures { result ≡ step (links_of places.now) first k }
{
    let mut p = first;
    for _ in 0..k {
        p = places[p as usize].next;
    }
    p
}
