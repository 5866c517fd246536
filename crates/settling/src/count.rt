// How many claims were accepted, and how many refused.
ghost use Rattle.std.specs.Prelude.{◌≡◌, Some};
ghost use Rattle.settling.specs.Counts.{no_claims, one_claim};
ghost use Rattle.settling.specs.Texts.{claims_text};

use std::fmt;

// Each number stops at the end of its type. `writing` counts vectors by a type of its own: what rises and what is printed differ, and
// one type for both would lose the names.
#[derive(Clone, Copy, PartialEq, Eq, Debug)]
pub struct Claims {
    pub accepted: u64,
    pub refused: u64,
}

impl Claims {
    pub(crate) fn none() -> Claims
        ensures { result ≡ no_claims }
    {
        Claims {
            accepted: 0,
            refused: 0,
        }
    }

    // Those with one claim more.
    pub(crate) fn with(self, accepted: bool) -> Claims
        ensures { result ≡ one_claim self accepted }
    {
        if accepted {
            Claims {
                accepted: self.accepted.saturating_add(1),
                ..self
            }
        } else {
            Claims {
                refused: self.refused.saturating_add(1),
                ..self
            }
        }
    }
}

impl fmt::Display for Claims {
    ghost output = { λ claims. Some (claims_text claims) };

    fn fmt<W: fmt::Write>(&self, f: &mut fmt::Formatter<W>) -> fmt::Result {
        let Claims { accepted, refused } = *self;
        write!(f, "{accepted} accepted, {refused} refused")
    }
}
