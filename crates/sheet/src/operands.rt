// The operand cells of a claim that is entered.
ghost use Rattle.std.specs.Prelude.{◌≡◌, ◌<◌, OnOk};
ghost use Rattle.sheet.specs.Calls.{allowed, word_at, second_word};
ghost use Rattle.sheet.specs.Operands.{operand_checked, operands_checked, claim_checked};
ghost use Rattle.sheet.specs.Tables.{state_at, standing_of};

use crate::cell::{State, check_accepted, check_taken, word_or_zero};
use crate::refusal::{Operand, Refusal};
use crate::table::Table;
use binary32::{Operation, Word};

fn check_operand(first: State) -> Result<(), Refusal>
    ensures { result ≡ operand_checked first }
{
    check_taken(first, Operand::First)?;
    check_accepted(first, Operand::First)
}

fn check_operands(first: State, second: State) -> Result<(), Refusal>
    ensures { result ≡ operands_checked first second }
{
    check_taken(first, Operand::First)?;
    check_taken(second, Operand::Second)?;
    check_accepted(first, Operand::First)?;
    check_accepted(second, Operand::Second)
}

// A root has one operand: its second cell is not looked up.
fn check_claim(table: &Table, operation: Operation, first: u64, second: u64) -> Result<(), Refusal>
    ensures { result ≡ claim_checked operation (state_at table.now first) (state_at table.now second) }
{
    if operation.is_root() {
        check_operand(table.state(first))
    } else {
        check_operands(table.state(first), table.state(second))
    }
}

// The operation of a claim that may be entered. That there is room comes first, then the code, then the cells.
pub(crate) fn allow(table: &Table, code: u32, first: u64, second: u64) -> Result<Operation, Refusal>
    ensures value { result ≡ allowed (standing_of table.now) code first second }
    ensures room { OnOk result (table.now.taken < 256) }
{
    if !table.has_room() {
        return Err(Refusal::Full);
    }
    let operation = Operation::try_from(code)?;
    check_claim(table, operation, first, second)?;
    Ok(operation)
}

// The words that a claim is examined with. The cells that it names were accepted when it was entered; a cell of any other state
// gives zero, so that nothing rests on that here.
pub(crate) fn first_word(table: &Table, first: u64) -> Word
    ensures { result ≡ word_at (standing_of table.now) first }
{
    word_or_zero(table.state(first))
}

// Zero where the operation is a root, whose second cell is not read.
pub(crate) fn second_word(table: &Table, operation: Operation, second: u64) -> Word
    ensures { result ≡ second_word (standing_of table.now) operation second }
{
    if operation.is_root() {
        Word::ZERO
    } else {
        word_or_zero(table.state(second))
    }
}
