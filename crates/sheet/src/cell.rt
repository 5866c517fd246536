// A cell of a sheet, and what one of them alone can answer and become.
ghost use Rattle.std.specs.Prelude.{◌≡◌};
ghost use Rattle.sheet.specs.Cells.{taken_in, accepted_in, word_in, word_or_zero, settled_state, closed_cell};

use crate::refusal::{Operand, Refusal};
use binary32::{Operation, Word};
use checks::Flaw;

#[derive(Clone, Copy, PartialEq, Eq, Debug)]
pub enum State {
    // Not taken yet.
    Free,
    // A word that was given; it counts as accepted.
    Input(Word),
    // A claim that waits for its hints: that the operation on the words of two cells has this word. A struct for the four is no
    // plainer: it would be taken apart wherever a claim is looked at.
    Pending {
        operation: Operation,
        first: u64,
        second: u64,
        word: Word,
    },
    // The word of a claim that passed every check.
    Accepted(Word),
    // A claim that failed a check or was given up.
    Struck,
}

#[derive(Clone, Copy, PartialEq, Eq, Debug)]
pub struct Cell {
    pub state: State,
}

// That the cell of an operand is taken.
pub(crate) fn check_taken(state: State, operand: Operand) -> Result<(), Refusal>
    ensures { result ≡ taken_in state operand }
{
    match state {
        State::Free => Err(Refusal::NotTaken { operand }),
        _ => Ok(()),
    }
}

// That the cell of an operand is neither pending nor struck.
pub(crate) fn check_accepted(state: State, operand: Operand) -> Result<(), Refusal>
    ensures { result ≡ accepted_in state operand }
{
    match state {
        State::Pending { .. } | State::Struck => Err(Refusal::NotAccepted { operand }),
        _ => Ok(()),
    }
}

// The word of an accepted cell.
pub(crate) fn word_in(state: State) -> Result<Word, Refusal>
    ensures { result ≡ word_in state }
{
    match state {
        State::Input(word) | State::Accepted(word) => Ok(word),
        State::Free => Err(Refusal::NotTaken {
            operand: Operand::First,
        }),
        State::Pending { .. } | State::Struck => Err(Refusal::NotAccepted {
            operand: Operand::First,
        }),
    }
}

// The word of an accepted cell, and zero of any other.
pub(crate) fn word_or_zero(state: State) -> Word
    ensures { result ≡ word_or_zero state }
{
    word_in(state).unwrap_or(Word::ZERO)
}

// Settles a claim for `word`: the cell has the word where no check failed, and is struck where one did.
pub(crate) fn settle_cell(cell: &mut Cell, word: Word, found: Result<(), Flaw>)
    ensures { cell.new ≡ record { state = settled_state word found } }
{
    cell.state = match found {
        Ok(()) => State::Accepted(word),
        Err(_) => State::Struck,
    };
}

pub(crate) fn strike_cell(cell: &mut Cell)
    ensures { cell.new ≡ record { state = State.Struck } }
{
    cell.state = State::Struck;
}

// Closes a cell with its sheet: a pending one is struck.
pub(crate) fn close_cell(cell: &mut Cell)
    ensures { cell.new ≡ closed_cell cell.old }
{
    if let State::Pending { .. } = cell.state {
        strike_cell(cell);
    }
}
