// A row of a list: ten numbers that say what is put on a sheet.
ghost use Rattle.std.specs.Prelude.{◌≡◌};
ghost use Rattle.kelfrudd.specs.Rows.{code_from, row_of, claim_reply, claim_after, row_reply, row_after, taken_reply, taken_after};

use crate::claim::Claim;
use crate::refusal::Refusal;
use binary32::Word;
use hints::{Hints, Written};
use sheet::OpenSheet;
use systems::System;

// An input has the code 0, and only its word is looked at. Any other row is a claim.
#[derive(Clone, Copy, PartialEq, Eq, Debug)]
pub(crate) enum Row {
    Input(Word),
    Claim(Claim<u64>),
}

// A code above 32 bits is none of an operation, and neither is the one that stands in for it.
fn code_from(number: u64) -> u32
    ensures { result ≡ code_from number }
{
    u32::try_from(number).unwrap_or(u32::MAX)
}

impl TryFrom<[u64; 10]> for Row {
    type Error = Refusal;

    ghost try_from_gives = { λ numbers given. given ≡ row_of numbers };

    // A word above 32 bits makes no row.
    fn try_from(numbers: [u64; 10]) -> Result<Row, Refusal> {
        let [code, first, second, word, main, rest, lift, keep, drop, up] = numbers;
        let bits = u32::try_from(word).map_err(|_| Refusal::WideWord)?;
        let word = Word { bits };
        if code == 0 {
            return Ok(Row::Input(word));
        }
        let hints = Hints::from([main, rest, lift, keep, drop, up]);
        Ok(Row::Claim(Claim {
            code: code_from(code),
            first,
            second,
            written: Written { word, hints },
        }))
    }
}

impl Claim<u64> {
    // A claim is entered, and settled at once.
    fn put_on<S: System>(self, sheet: &mut OpenSheet<S>) -> Result<u64, sheet::Refusal>
        ensures reply { result ≡ claim_reply sheet.old self }
        ensures after { sheet.new ≡ claim_after sheet.old self }
    {
        let ticket = sheet.enter(self.code, self.first, self.second, self.written.word)?;
        sheet.settle(ticket, self.written.hints)
    }
}

impl Row {
    // Puts the row on a sheet, and gives its cell.
    fn put_on<S: System>(self, sheet: &mut OpenSheet<S>) -> Result<u64, sheet::Refusal>
        ensures reply { result ≡ row_reply sheet.old self }
        ensures after { sheet.new ≡ row_after sheet.old self }
    {
        match self {
            Row::Input(word) => sheet.input(word),
            Row::Claim(claim) => claim.put_on(sheet),
        }
    }
}

// Puts the row of these numbers on a sheet, and gives its cell.
pub(crate) fn take_row<S: System>(
    sheet: &mut OpenSheet<S>,
    numbers: [u64; 10],
) -> Result<u64, Refusal>
    ensures reply { result ≡ taken_reply sheet.old (row_of numbers) }
    ensures after { sheet.new ≡ taken_after sheet.old (row_of numbers) }
{
    let row = Row::try_from(numbers)?;
    Ok(row.put_on(sheet)?)
}
