// The subscriptions asked for, as a list that holds at most eight.
ghost use Rattle.std.specs.Prelude.{◌≡◌, ltb, [], ◌∷◌, ◌++◌, length, if◌then◌else◌, is_ok, nat_lt};
ghost use Rattle.request.specs.Wanted.{asked_in};

use super::{Asked, MOST, TooMany, Wanted};

impl Wanted {
    pub fn new() -> Wanted
        ensures { asked_in result ≡ [] }
    {
        Wanted {
            places: [Asked { id: 0, lowest: 0 }; MOST],
            len: 0,
        }
    }

    // One more at the end; refused, with no change, where eight are in it.
    #[tactic(auto, using(crate::proofs::Pushing::asked_count, std::proofs::lemmas::List::take_more_set))]
    pub fn push(&mut self, asked: Asked) -> Result<(), TooMany>
        ensures fits { is_ok result ≡ nat_lt (length (asked_in self.old)) 8 }
        ensures items { asked_in self.new ≡ (if ltb (length (asked_in self.old)) 8 then asked_in self.old ++ asked ∷ [] else asked_in self.old) }
    {
        if self.len >= MOST {
            return Err(TooMany);
        }
        self.places[self.len] = asked;
        self.len += 1;
        Ok(())
    }

    pub fn as_slice(&self) -> &[Asked]
        ensures { result.now ≡ asked_in self.now }
    {
        &self.places[..self.len]
    }
}
