// The claims of vectors, settled over one system and counted.
ghost use Rattle.std.specs.Prelude.{◌≡◌};
ghost use Rattle.settling.specs.Claimed.{damaged_of};
ghost use Rattle.settling.specs.Counts.{nothing, settled};

use crate::claim::is_accepted;
use crate::count::Claims;
use binary32::Word;
use systems::System;
use writing::{Vector, meant_by};

#[derive(Clone, Copy, PartialEq, Eq, Debug)]
pub struct Settlements {
    // Claims with the word that the vector expects.
    pub expected: Claims,
    // Claims with that word damaged.
    pub damaged: Claims,
}

// The word with its lowest bit turned.
fn damage(word: Word) -> Word
    ensures { result ≡ damaged_of word }
{
    Word {
        bits: word.bits ^ 1,
    }
}

impl Settlements {
    pub fn new() -> Settlements
        ensures { result ≡ nothing }
    {
        Settlements {
            expected: Claims::none(),
            damaged: Claims::none(),
        }
    }

    // Settles both claims of a vector on sheets over the system, and counts them.
    pub fn settle<S: System>(&mut self, system: S, vector: Vector)
        ensures { self.new ≡ settled self.old vector }
    {
        let word = meant_by(vector.expected);
        let request = vector.request;
        self.expected = self.expected.with(is_accepted(system, request, word));
        self.damaged = self
            .damaged
            .with(is_accepted(system, request, damage(word)));
    }
}
