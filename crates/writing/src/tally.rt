// How many answers there were of each kind.
ghost use Rattle.std.specs.Prelude.{◌≡◌, Some};
ghost use Rattle.writing.specs.Tallies.{none, counted};
ghost use Rattle.writing.specs.Texts.{tally_text};

use crate::answer::Answer;
use notation::Fault;
use std::fmt;

// Each number stops at the end of its type.
#[derive(Clone, Copy, PartialEq, Eq, Debug)]
pub struct Tally {
    // Steps that need no rounding.
    pub direct: u64,
    pub rounded: u64,
    // Lines that are no step.
    pub refused: u64,
}

impl Tally {
    pub fn new() -> Tally
        ensures { result ≡ none }
    {
        Tally {
            direct: 0,
            rounded: 0,
            refused: 0,
        }
    }

    // Counts one answer more. By the rules a step is direct just if its main is 0: a rounded step has none such.
    pub fn count(&mut self, answer: &Result<Answer, Fault>)
        ensures { self.new ≡ counted self.old answer.now }
    {
        match answer {
            Ok(answer) if answer.written.hints.main == 0 => {
                self.direct = self.direct.saturating_add(1);
            }
            Ok(_) => self.rounded = self.rounded.saturating_add(1),
            Err(_) => self.refused = self.refused.saturating_add(1),
        }
    }
}

impl fmt::Display for Tally {
    ghost output = { λ tally. Some (tally_text tally) };

    fn fmt<W: fmt::Write>(&self, f: &mut fmt::Formatter<W>) -> fmt::Result {
        let Tally {
            direct,
            rounded,
            refused,
        } = *self;
        write!(f, "{direct} direct, {rounded} rounded, {refused} refused")
    }
}
