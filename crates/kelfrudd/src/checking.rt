// The checks over numbers and slices.
ghost use Rattle.std.specs.Prelude.{◌≡◌, length};
ghost use Rattle.binary32.specs.Operations.{operation_of};
ghost use Rattle.kelfrudd.specs.Checked.{hints_in, checked_by, checked_in, checked_reply, checked_number, checked_places, hint_named};

use crate::claim::Claim;
use crate::refusal::{Refusal, number_told};
use crate::system_name::SystemName;
use binary32::{Operation, Word};
use checks::{Flaw, examine};
use hints::{Hints, Written};
use systems::{Pair, System, Wrapping};

impl Claim<Word> {
    // Nothing, where the claim is what the writer gives.
    fn check<S: System>(self, system: &S) -> Result<(), Refusal>
        ensures { result ≡ checked_by (operation_of self.code) self.first.bits self.second.bits self.written.word self.written.hints }
    {
        let operation = Operation::try_from(self.code)?;
        examine(system, operation, self.first, self.second, self.written)?;
        Ok(())
    }

    // The same in a system that is named.
    fn check_in(self, name: SystemName) -> Result<(), Refusal>
        ensures { result ≡ checked_by (operation_of self.code) self.first.bits self.second.bits self.written.word self.written.hints }
    {
        match name {
            SystemName::Wrapping => self.check(&Wrapping),
            SystemName::Pair => self.check(&Pair),
        }
    }
}

// Writes the number of the hint that is outside its width, or 0.
fn name_hint(found: Result<(), Refusal>, place: &mut u64)
    ensures { place.new ≡ hint_named found }
{
    *place = match found {
        Err(Refusal::Claim(Flaw::Width(hint))) => u64::from(u32::from(hint)),
        _ => 0,
    };
}

// What is found in a claim that is handed over in numbers. The first place of `named` gets the hint.
fn check(
    system: u32,
    code: u32,
    first: Word,
    second: Word,
    claimed: Word,
    hints: &[u64],
    named: &mut [u64],
) -> Result<(), Refusal>
    ensures reply { result ≡ checked_reply (length named.old) (length hints.now) (checked_in system (checked_by (operation_of code) first.bits second.bits claimed (hints_in hints.now))) }
    ensures after { named.new ≡ checked_places named.old (length hints.now) (checked_in system (checked_by (operation_of code) first.bits second.bits claimed (hints_in hints.now))) }
{
    let place = named.first_mut().ok_or(Refusal::TooShort)?;
    let hints = hints.first_chunk::<6>().ok_or(Refusal::TooShort)?;
    let name = SystemName::try_from(system)?;
    let claim = Claim {
        code,
        first,
        second,
        written: Written {
            word: claimed,
            hints: Hints::from(*hints),
        },
    };
    let found = claim.check_in(name);
    name_hint(found, place);
    found
}

// Checks a claimed word and its six hints, in the system with this number: 0 where they are what the writer gives, else the number of the
// refusal. The first place of `named` then has the number of the hint that is outside its width, or 0. Where a slice is too short or no
// system has the number, nothing is written.
pub fn check_step(
    system: u32,
    code: u32,
    first: u32,
    second: u32,
    claimed: u32,
    hints: &[u64],
    named: &mut [u64],
) -> u32
    ensures reply { result ≡ checked_number (length named.old) (length hints.now) (checked_in system (checked_by (operation_of code) first second (record { bits = claimed }) (hints_in hints.now))) }
    ensures after { named.new ≡ checked_places named.old (length hints.now) (checked_in system (checked_by (operation_of code) first second (record { bits = claimed }) (hints_in hints.now))) }
{
    number_told(check(
        system,
        code,
        Word { bits: first },
        Word { bits: second },
        Word { bits: claimed },
        hints,
        named,
    ))
}
