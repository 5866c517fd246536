// The systems that a caller of another language can name.
ghost use Rattle.std.specs.Prelude.{◌≡◌};
ghost use Rattle.kelfrudd.specs.SystemNames.{system_named};

use crate::refusal::Refusal;

// It is matched twice, where a step and where a list is run: one match for both is no plainer, as each runs a generic function of
// its own.
#[derive(Clone, Copy, PartialEq, Eq, Debug)]
pub(crate) enum SystemName {
    Wrapping,
    Pair,
}

impl TryFrom<u32> for SystemName {
    type Error = Refusal;

    ghost try_from_gives = { λ number given. given ≡ system_named number };

    fn try_from(number: u32) -> Result<SystemName, Refusal> {
        match number {
            1 => Ok(SystemName::Wrapping),
            2 => Ok(SystemName::Pair),
            _ => Err(Refusal::UnknownSystem),
        }
    }
}
