// What a caller gets instead of an answer.
ghost use Rattle.std.specs.Prelude.{◌≡◌};
ghost use Rattle.hints.specs.Refusals.{told_of};
ghost use Rattle.hints.specs.declared.refusal.Refusal.TheVariants.{UnknownCode};

use binary32::UnknownCode;

// The part that refuses.
#[derive(Clone, Copy, PartialEq, Eq, Debug)]
pub enum Layer {
    Writer,
    Sheet,
    Hints,
    Equations,
    Word,
}

// One case: `UnknownCode` itself is no plainer, since what is refused is told of by a number and a layer in each part.
#[derive(Clone, Copy, PartialEq, Eq, Debug)]
pub enum Refusal {
    // The code is none of an operation.
    UnknownCode,
}

impl From<UnknownCode> for Refusal {
    ghost from_gives = { λ _ refusal. refusal ≡ UnknownCode };

    fn from(_: UnknownCode) -> Refusal {
        Refusal::UnknownCode
    }
}

impl Refusal {
    pub fn number(self) -> u32
        ensures { result ≡ (told_of self).number }
    {
        match self {
            Refusal::UnknownCode => 2,
        }
    }

    pub fn layer(self) -> Layer
        ensures { result ≡ (told_of self).layer }
    {
        match self {
            Refusal::UnknownCode => Layer::Writer,
        }
    }
}
