// The whole square root of a radicand, and what it leaves over.
ghost use Rattle.std.specs.Prelude.{◌≡◌, ◌/◌, ◌^◌, ◌<◌, ◌≤◌, IfSome};
ghost use Rattle.hints.specs.Scheme.{root_with_rest};

// A number whose square root has 26 bits.
#[derive(Clone, Copy)]
pub(crate) struct Radicand {
    pub(crate) value: u64,
    ghost fits: { value < 2 ^ 52 },
}

impl Radicand {
    // One step of Newton's rule towards the root.
    fn nearer_root(self, guess: u64) -> u64
        requires low { 2 ≤ guess }
        requires high { guess < 2 ^ 52 }
        ensures low_bound { guess / 2 ≤ result }
        ensures high_bound { result < 2 ^ 52 }
    {
        (guess + self.value / guess) / 2
    }

    // A guess at the root: two steps of Newton's rule from a line, one below 2^50 and one from there on, that is within a hundredth of
    // the root. Of the radicands of steps, from 2^49 to 2^51, it is right for all but one in two hundred or so.
    fn guessed_root(self) -> u64 {
        let line = if self.value < 0x4_0000_0000_0000 {
            14106966 + ((self.value >> 25) * 150 >> 8)
        } else {
            19958763 + ((self.value >> 26) * 212 >> 8)
        };
        self.nearer_root(self.nearer_root(line))
    }

    // A guess with what it leaves over, if it is the root. That is known by what it leaves over, so nothing rests on how good guesses are.
    #[tactic(auto, using(crate::proofs::Roots::root_found))]
    fn root_by(self, guess: u64) -> Option<(u64, u64)>
        ensures { IfSome result (λ found. found ≡ root_with_rest self.value) }
    {
        if guess < 0x400_0000 && guess * guess <= self.value {
            let rest = self.value - guess * guess;
            if rest <= 2 * guess {
                return Some((guess, rest));
            }
        }
        None
    }

    // Newton's rule comes from above: tried over all radicands of steps, a guess is the root or else one above it. That is not proved,
    // so the library's root stands behind both.
    #[tactic(auto, using(crate::proofs::Roots::root_found))]
    pub(crate) fn root(self) -> (u64, u64)
        ensures { result ≡ root_with_rest self.value }
    {
        let guess = self.guessed_root();
        if let Some(found) = self.root_by(guess) {
            return found;
        }
        if let Some(found) = self.root_by(guess.saturating_sub(1)) {
            return found;
        }
        let root = self.value.isqrt();
        (root, self.value - root * root)
    }
}
