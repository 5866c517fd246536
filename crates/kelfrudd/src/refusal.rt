// Why a function over numbers refuses, and the number that is answered for it.
ghost use Rattle.std.specs.Prelude.{◌≡◌, Ok, Err};
ghost use Rattle.kelfrudd.specs.Refusals.{number_of, values_of, number_told};
ghost use Rattle.hints.specs.declared.refusal.Refusal.TheVariants.{UnknownCode};
ghost use Rattle.kelfrudd.specs.declared.refusal.Refusal.TheVariants.{Writer, Claim, Sheet};

use binary32::UnknownCode;
use checks::Flaw;
use sheet::Values;

#[derive(Clone, Copy, PartialEq, Eq, Debug)]
pub(crate) enum Refusal {
    // A slice has fewer places than the function needs.
    TooShort,
    // The numbers of a list do not make whole rows.
    NoWholeRows,
    // No system has the number.
    UnknownSystem,
    // A word is above 32 bits.
    WideWord,
    // The writer's refusal of a code.
    Writer(hints::Refusal),
    // What is wrong with a claim.
    Claim(Flaw),
    // The refusal of a sheet.
    Sheet(sheet::Refusal),
}

impl From<UnknownCode> for Refusal {
    ghost from_gives = { λ _ given. given ≡ Writer UnknownCode };

    fn from(unknown: UnknownCode) -> Refusal {
        Refusal::Writer(hints::Refusal::from(unknown))
    }
}

impl From<hints::Refusal> for Refusal {
    ghost from_gives = { λ refusal given. given ≡ Writer refusal };

    fn from(refusal: hints::Refusal) -> Refusal {
        Refusal::Writer(refusal)
    }
}

impl From<Flaw> for Refusal {
    ghost from_gives = { λ flaw given. given ≡ Claim flaw };

    fn from(flaw: Flaw) -> Refusal {
        Refusal::Claim(flaw)
    }
}

impl From<sheet::Refusal> for Refusal {
    ghost from_gives = { λ refusal given. given ≡ Sheet refusal };

    fn from(refusal: sheet::Refusal) -> Refusal {
        Refusal::Sheet(refusal)
    }
}

impl Refusal {
    pub(crate) fn number(self) -> u32
        ensures { result ≡ number_of self }
    {
        match self {
            Refusal::TooShort => 101,
            Refusal::NoWholeRows => 102,
            Refusal::UnknownSystem => 103,
            Refusal::WideWord => 104,
            Refusal::Writer(refusal) => refusal.number(),
            Refusal::Claim(flaw) => flaw.number(),
            Refusal::Sheet(refusal) => refusal.number(),
        }
    }

    // What it tells besides its number: a sheet's its values, and a hint outside its width which hint that is.
    pub(crate) fn values(self) -> Values
        ensures { result ≡ values_of self }
    {
        match self {
            Refusal::Sheet(refusal) => refusal.values(),
            Refusal::Claim(Flaw::Width(hint)) => Values {
                first: u64::from(u32::from(hint)),
                second: 0,
            },
            Refusal::TooShort
            | Refusal::NoWholeRows
            | Refusal::UnknownSystem
            | Refusal::WideWord
            | Refusal::Writer(hints::Refusal::UnknownCode)
            | Refusal::Claim(Flaw::FirstEquation | Flaw::SecondEquation | Flaw::Up | Flaw::Word) =>
                Values {
                    first: 0,
                    second: 0,
                },
        }
    }
}

// What a caller of another language gets: 0 where nothing is refused, and else the refusal's number.
pub(crate) fn number_told(reply: Result<(), Refusal>) -> u32
    ensures { result ≡ number_told reply }
{
    match reply {
        Ok(()) => 0,
        Err(refusal) => refusal.number(),
    }
}
