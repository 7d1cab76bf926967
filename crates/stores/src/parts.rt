// A part of the input: a line with sizes, and the steps that follow it.
ghost use Rattle.std.specs.Prelude.{◌≡◌, ◌≤◌, [], ◌∷◌, ◌++◌, Some, None, vec_len, OnOk, IfSome};
ghost use Rattle.std.specs.List.{slice_get};
ghost use Rattle.stores.specs.Lines.{puts_after};

use script::Step;
use std::alloc::{AllocError, Global};
use store::Sizes;

// A line of the part that is not passed over. The stores play the steps as one slice, so a line has
// the place of its step there, and not the step.
#[derive(Clone, Copy, Debug, PartialEq, Eq)]
pub struct Entry {
    pub line: u32,
    pub step: Option<usize>,
}

// `puts` counts the puts so far, so that a new line needs no count of all the steps before it.
#[derive(Drop)]
pub struct Part {
    pub line: u32,
    pub sizes: Sizes,
    pub steps: Vec<Step>,
    pub entries: Vec<Entry>,
    pub puts: u32,
}

impl Part {
    pub fn new(heap: Global, line: u32, sizes: Sizes) -> Part
        ensures line { result.line ≡ line }
        ensures sizes { result.sizes ≡ sizes }
        ensures steps { result.steps.items ≡ [] }
        ensures entries { result.entries.items ≡ [] }
        ensures puts { result.puts ≡ 0 }
    {
        Part {
            line,
            sizes,
            steps: Vec::new(heap),
            entries: Vec::new(heap),
            puts: 0,
        }
    }

    pub fn add_step(&mut self, line: u32, step: Step) -> Result<(), AllocError>
        ensures steps { OnOk result (self.new.steps.items ≡ self.old.steps.items ++ step ∷ []) }
        ensures entries { OnOk result (self.new.entries.items ≡ self.old.entries.items ++ record { line = line; step = Some (vec_len self.old.steps) } ∷ []) }
        ensures puts { OnOk result (self.new.puts ≡ puts_after self.old.puts step) }
        ensures sizes { self.new.sizes ≡ self.old.sizes }
    {
        let place = self.steps.len();
        self.steps.push(step)?;
        self.entries.push(Entry {
            line,
            step: Some(place),
        })?;
        if matches!(step, Step::Put { .. }) {
            self.puts = self.puts.saturating_add(1);
        }
        Ok(())
    }

    // A line that is no step.
    pub fn add_fault(&mut self, line: u32) -> Result<(), AllocError>
        ensures entries { OnOk result (self.new.entries.items ≡ self.old.entries.items ++ record { line = line; step = None } ∷ []) }
        ensures steps { self.new.steps ≡ self.old.steps }
        ensures puts { self.new.puts ≡ self.old.puts }
        ensures sizes { self.new.sizes ≡ self.old.sizes }
    {
        self.entries.push(Entry { line, step: None })?;
        Ok(())
    }

    // The step of a line, with its place.
    pub fn step_of(&self, entry: &Entry) -> Option<(usize, &Step)>
        ensures found { IfSome result (λ p. (entry.now.step ≡ Some p.0) × (slice_get self.now.steps.items p.0 ≡ Some p.1.now)) }
        ensures none { result ≡ None → IfSome entry.now.step (λ place. vec_len self.now.steps ≤ place) }
    {
        let place = entry.step?;
        Some((place, self.steps.get(place)?))
    }
}
