// The stores that a script is played on: two with no spare, and four that have one.
ghost use Rattle.std.specs.Prelude.{◌≡◌, ◌+◌, ◌≤◌, [], ◌∷◌, codes, map, replicate, IfOk};
ghost use Rattle.store.specs.Sizes.{spare_made, shelf_made};
ghost use Rattle.script.specs.Script.{contents};
ghost use Rattle.stores.specs.Groups.{Shows, ShowEach, empty_store, names_in, over_chains, over_shelf, spares_of};

use chains::Chains;
use script::{Seen, Step, play, play_both};
use shelf::Shelf;
use std::alloc::{AllocError, Global};
use store::{Lanes, NoticeStore, Sizes};

// A store by its name and its sizes, and what is seen of it: an answer for each step, in a list of its
// own, since the steps are the same for all stores.
#[derive(Drop)]
pub struct Report {
    pub name: &'static str,
    pub sizes: Sizes,
    pub seen: Vec<Seen>,
}

// Steps for stores that are made with these sizes, and the memory for both.
#[derive(Clone, Copy)]
pub struct Script<'a> {
    pub heap: Global,
    pub sizes: Sizes,
    pub steps: &'a [Step],
}

// Chains of these sizes, with a shelf over them.
fn shelf_over_chains(heap: Global, sizes: Sizes, size: usize) -> Result<Shelf<Chains>, AllocError>
    ensures { IfOk result (λ s. contents ⟦<Shelf<Chains> as NoticeStore>⟧ s ≡ empty_store sizes (spare_made sizes.spare + shelf_made size)) }
{
    let chains = Chains::new(heap, sizes)?;
    Ok(Shelf::new(heap, chains, size)?)
}

impl Script<'_> {
    fn play_on<S: NoticeStore + Drop>(
        &self,
        name: &'static str,
        mut store: S,
    ) -> Result<Report, AllocError>
        ensures named { IfOk result (λ w. w.name.now ≡ name.now) }
        ensures shows { IfOk result (λ w. Shows w (contents S.NoticeStore store) self.now.steps.now) }
    {
        let sizes = store.sizes();
        let seen = play(self.heap, &mut store, self.steps)?;
        Ok(Report { name, sizes, seen })
    }

    // The script on two stores, each with its name.
    fn play_on_both<S: NoticeStore + Drop, T: NoticeStore + Drop>(
        &self,
        names: [&'static str; 2],
        mut first: S,
        mut second: T,
    ) -> Result<[Report; 2], AllocError>
        ensures named { IfOk result (λ ws. names_in ws ≡ map (λ n. n.now) names.entry) }
        ensures shows { IfOk result (λ ws. ShowEach ws (contents S.NoticeStore first ∷ contents T.NoticeStore second ∷ []) self.now.steps.now) }
    {
        let sizes = [first.sizes(), second.sizes()];
        let seen = play_both(self.heap, &mut first, &mut second, self.steps)?;
        Ok([
            Report {
                name: names[0],
                sizes: sizes[0],
                seen: seen.0,
            },
            Report {
                name: names[1],
                sizes: sizes[1],
                seen: seen.1,
            },
        ])
    }

    fn play_on_chains(&self) -> Result<Report, AllocError>
        ensures named { IfOk result (λ w. w.name.now ≡ codes "chains") }
        ensures shows { IfOk result (λ w. Shows w (empty_store self.now.sizes (spare_made self.now.sizes.spare)) self.now.steps.now) }
    {
        let chains = Chains::new(self.heap, self.sizes)?;
        self.play_on("chains", chains)
    }

    fn play_over_lanes(&self) -> Result<Report, AllocError>
        ensures named { IfOk result (λ w. w.name.now ≡ codes "shelf over lanes") }
        ensures shows { IfOk result (λ w. Shows w (empty_store self.now.sizes (shelf_made self.now.sizes.spare)) self.now.steps.now) }
    {
        let lanes = Lanes::new(self.heap, self.sizes.slots, self.sizes.reserve)?;
        let shelf = Shelf::new(self.heap, lanes, self.sizes.spare)?;
        self.play_on("shelf over lanes", shelf)
    }

    // The spare is split between the shelf and the chains.
    fn play_over_chains(&self) -> Result<Report, AllocError>
        ensures named { IfOk result (λ w. w.name.now ≡ codes "shelf over chains") }
        ensures shows { IfOk result (λ w. Shows w (empty_store self.now.sizes (over_chains self.now.sizes.spare)) self.now.steps.now) }
    {
        let half = self.sizes.spare / 2;
        let spare = self.sizes.spare - half;
        let below = Sizes {
            spare,
            ..self.sizes
        };
        let shelf = shelf_over_chains(self.heap, below, half)?;
        self.play_on("shelf over chains", shelf)
    }

    // The spare is split between two shelves and the chains.
    fn play_over_shelf(&self) -> Result<Report, AllocError>
        ensures named { IfOk result (λ w. w.name.now ≡ codes "shelf over shelf over chains") }
        ensures shows { IfOk result (λ w. Shows w (empty_store self.now.sizes (over_shelf self.now.sizes.spare)) self.now.steps.now) }
    {
        let third = self.sizes.spare / 3;
        let spare = self.sizes.spare - 2 * third;
        let below = Sizes {
            spare,
            ..self.sizes
        };
        let lower = shelf_over_chains(self.heap, below, third)?;
        let upper = Shelf::new(self.heap, lower, third)?;
        self.play_on("shelf over shelf over chains", upper)
    }

    // Lanes, and chains with no spare: two stores with the same contents, so both show the same.
    pub fn play_without_spare(&self) -> Result<[Report; 2], AllocError>
        ensures named { IfOk result (λ ws. names_in ws ≡ codes "lanes" ∷ codes "chains" ∷ []) }
        ensures each { IfOk result (λ ws. ShowEach ws (map (empty_store self.now.sizes) (0 ∷ 0 ∷ [])) self.now.steps.now) }
    {
        let plain = Sizes {
            spare: 0,
            ..self.sizes
        };
        let lanes = Lanes::new(self.heap, plain.slots, plain.reserve)?;
        let chains = Chains::new(self.heap, plain)?;
        self.play_on_both(["lanes", "chains"], lanes, chains)
    }

    // The four stores with the spare. Where it is 3 to 16, each has all of it, so all show the same.
    pub fn play_with_spare(&self) -> Result<[Report; 4], AllocError>
        ensures named { IfOk result (λ ws. names_in ws ≡ codes "chains" ∷ codes "shelf over lanes" ∷ codes "shelf over chains" ∷ codes "shelf over shelf over chains" ∷ []) }
        ensures each { IfOk result (λ ws. ShowEach ws (map (empty_store self.now.sizes) (spares_of self.now.sizes.spare)) self.now.steps.now) }
        ensures agree { 3 ≤ self.now.sizes.spare → self.now.sizes.spare ≤ 16 → IfOk result (λ ws. ShowEach ws (map (empty_store self.now.sizes) (replicate 4 self.now.sizes.spare)) self.now.steps.now) }
    {
        Ok([
            self.play_on_chains()?,
            self.play_over_lanes()?,
            self.play_over_chains()?,
            self.play_over_shelf()?,
        ])
    }
}
