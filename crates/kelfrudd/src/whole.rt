// A whole sheet over numbers and slices.
ghost use Rattle.std.specs.Prelude.{◌≡◌, ◌∷◌, [], ◌/◌, length, MatchResult};
ghost use Rattle.kelfrudd.specs.Listed.{ran_to};
ghost use Rattle.kelfrudd.specs.Whole.{AreRowsOf, HasNoWholeRows, concluded_in, outcome_told, sheet_reply, sheet_number, sheet_places};

use crate::listed::{Listed, Stop};
use crate::refusal::{Refusal, number_told};
use crate::system_name::SystemName;

// A number, how many rows passed, what a refusal tells besides in two numbers, and the closing number.
fn five_of(outcome: Result<u64, Stop>, rows: u64) -> [u64; 5]
    ensures { result ≡ outcome_told outcome rows }
{
    match outcome {
        Ok(closing) => [0, rows, 0, 0, closing],
        Err(Stop { passed, refusal }) => {
            let values = refusal.values();
            [
                u64::from(refusal.number()),
                passed,
                values.first,
                u64::from(values.second),
                0,
            ]
        }
    }
}

// The numbers as rows of ten, where none of them is left over.
fn rows_of(numbers: &[u64]) -> Result<&[[u64; 10]], Refusal>
    ensures { MatchResult result (λ rows. AreRowsOf numbers.now rows.now) (λ r. HasNoWholeRows numbers.now r) }
{
    let (rows, rest) = numbers.as_chunks::<10>();
    if !rest.is_empty() {
        return Err(Refusal::NoWholeRows);
    }
    Ok(rows)
}

// What stops a list that is handed over in numbers. The first five places of `told` say how it went.
fn check(
    system: u32,
    serial: u32,
    weight: u64,
    numbers: &[u64],
    told: &mut [u64],
) -> Result<(), Refusal>
    ensures reply { result ≡ sheet_reply (length told.old) (length numbers.now) (concluded_in system (ran_to serial weight numbers.now (length numbers.now / 10))) }
    ensures after { told.new ≡ sheet_places told.old (length numbers.now) (concluded_in system (ran_to serial weight numbers.now (length numbers.now / 10))) }
{
    let places = told.first_chunk_mut::<5>().ok_or(Refusal::TooShort)?;
    let rows = rows_of(numbers)?;
    let name = SystemName::try_from(system)?;
    let listed = Listed {
        serial,
        weight,
        rows,
    };
    let outcome = listed.conclude_in(name);
    *places = five_of(outcome, rows.len() as u64);
    outcome.map(|_| ()).map_err(|stop| stop.refusal)
}

// Puts a list of rows, ten numbers each, on a new sheet over the system with this number, and stops at the first that does not pass; a list
// that passes has its sheet closed. The first five places of `told` say how it went. Where they are too few, the numbers make no whole
// rows or no system has the number, nothing is written.
pub fn check_sheet(system: u32, serial: u32, weight: u64, numbers: &[u64], told: &mut [u64]) -> u32
    ensures reply { result ≡ sheet_number (length told.old) (length numbers.now) (concluded_in system (ran_to serial weight numbers.now (length numbers.now / 10))) }
    ensures after { told.new ≡ sheet_places told.old (length numbers.now) (concluded_in system (ran_to serial weight numbers.now (length numbers.now / 10))) }
{
    number_told(check(system, serial, weight, numbers, told))
}
