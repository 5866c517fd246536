// What a caller of a sheet gets instead of an answer.
ghost use Rattle.std.specs.Prelude.{◌≡◌};
ghost use Rattle.sheet.specs.Refusals.{place_of, told_of, values_of};
ghost use Rattle.sheet.specs.declared.refusal.Refusal.TheVariants.{UnknownCode};

use binary32::UnknownCode;
use checks::Flaw;
use hints::Layer;

// Which operand of a claim.
#[derive(Clone, Copy, PartialEq, Eq, Debug)]
pub enum Operand {
    First = 1,
    Second = 2,
}

impl From<Operand> for u32 {
    ghost from_gives = { λ operand place. place ≡ place_of operand };

    fn from(operand: Operand) -> u32 {
        operand as u32
    }
}

#[derive(Clone, Copy, PartialEq, Eq, Debug)]
pub enum Refusal {
    // Every cell is taken.
    Full,
    // The code is none of an operation.
    UnknownCode,
    // The cell of this operand is not taken.
    NotTaken { operand: Operand },
    // The cell of this operand is pending or struck.
    NotAccepted { operand: Operand },
    // The ticket is of another sheet, or its cell is not pending.
    BadTicket,
    // The claim of this cell has this flaw, and was struck for it.
    Flawed { cell: u64, flaw: Flaw },
}

impl From<UnknownCode> for Refusal {
    ghost from_gives = { λ _ refusal. refusal ≡ UnknownCode };

    fn from(_: UnknownCode) -> Refusal {
        Refusal::UnknownCode
    }
}

// What a refusal tells besides its number: a number that it is about, and for a hint a second one. Where
// there is none, it is 0, as the rules lay it out for callers in C.
#[derive(Clone, Copy, PartialEq, Eq, Debug)]
pub struct Values {
    pub first: u64,
    pub second: u32,
}

impl Refusal {
    pub fn number(self) -> u32
        ensures { result ≡ (told_of self).number }
    {
        match self {
            Refusal::Full => 1,
            Refusal::UnknownCode => 2,
            Refusal::NotTaken { .. } => 3,
            Refusal::NotAccepted { .. } => 4,
            Refusal::BadTicket => 5,
            Refusal::Flawed { flaw, .. } => flaw.number(),
        }
    }

    pub fn layer(self) -> Layer
        ensures { result ≡ (told_of self).layer }
    {
        match self {
            Refusal::Full
            | Refusal::UnknownCode
            | Refusal::NotTaken { .. }
            | Refusal::NotAccepted { .. }
            | Refusal::BadTicket => Layer::Sheet,
            Refusal::Flawed { flaw, .. } => flaw.layer(),
        }
    }

    pub fn values(self) -> Values
        ensures { result ≡ values_of self }
    {
        match self {
            Refusal::Full | Refusal::UnknownCode | Refusal::BadTicket => Values {
                first: 0,
                second: 0,
            },
            Refusal::NotTaken { operand } | Refusal::NotAccepted { operand } => Values {
                first: u64::from(u32::from(operand)),
                second: 0,
            },
            Refusal::Flawed {
                cell,
                flaw: Flaw::Width(hint),
            } => Values {
                first: cell,
                second: u32::from(hint),
            },
            Refusal::Flawed { cell, .. } => Values {
                first: cell,
                second: 0,
            },
        }
    }
}
