// How many requests there were of each verdict, and how many lines were none.
ghost use Rattle.std.specs.Prelude.{◌≡◌};
ghost use Rattle.regions.specs.Counts.{tally_with, counted};

use crate::findings::Verdict;

// Each number stops at the end of its type.
#[derive(Clone, Copy, PartialEq, Eq, Debug)]
pub struct Tally {
    pub inside: u64,
    pub outside: u64,
    pub not_shown: u64,
    // Lines that are no request.
    pub bad: u64,
}

impl Tally {
    pub fn new() -> Tally
        ensures { result ≡ tally_with 0 0 0 0 }
    {
        Tally {
            inside: 0,
            outside: 0,
            not_shown: 0,
            bad: 0,
        }
    }

    // Counts one line more, by the verdict on its request if it is one.
    pub fn count(&mut self, verdict: Option<Verdict>)
        ensures { self.new ≡ counted self.old verdict }
    {
        match verdict {
            Some(Verdict::Inside) => self.inside = self.inside.saturating_add(1),
            Some(Verdict::Outside) => self.outside = self.outside.saturating_add(1),
            Some(Verdict::NotShown) => self.not_shown = self.not_shown.saturating_add(1),
            None => self.bad = self.bad.saturating_add(1),
        }
    }
}
