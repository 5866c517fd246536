// What can be wrong with a claim.
ghost use Rattle.std.specs.Prelude.{◌≡◌, Ok, Err, if◌then◌else◌};
ghost use Rattle.checks.specs.Flaws.{told_of};

use hints::{Hint, Layer};

#[derive(Clone, Copy, PartialEq, Eq, Debug)]
pub enum Flaw {
    // This hint is outside its width.
    Width(Hint),
    FirstEquation,
    SecondEquation,
    Up,
    Word,
}

impl Flaw {
    // The number of the check that finds it.
    pub fn number(self) -> u32
        ensures { result ≡ (told_of self).number }
    {
        match self {
            Flaw::Width(_) => 6,
            Flaw::FirstEquation => 7,
            Flaw::SecondEquation => 8,
            Flaw::Up => 9,
            Flaw::Word => 10,
        }
    }

    // The part of the checks that refuses.
    pub fn layer(self) -> Layer
        ensures { result ≡ (told_of self).layer }
    {
        match self {
            Flaw::Width(_) => Layer::Hints,
            Flaw::FirstEquation | Flaw::SecondEquation | Flaw::Up => Layer::Equations,
            Flaw::Word => Layer::Word,
        }
    }
}

// A check finds this flaw, unless it passes.
pub(crate) fn check(passes: bool, flaw: Flaw) -> Result<(), Flaw>
    ensures { result ≡ (if passes then Ok tt else Err flaw) }
{
    if passes { Ok(()) } else { Err(flaw) }
}
