// The table of a sheet.
ghost use Rattle.std.specs.Prelude.{◌≡◌, ◌<◌, map};
ghost use Rattle.sheet.specs.Cells.{settled_state, closed_cell};
ghost use Rattle.sheet.specs.Tables.{empty_table, state_at, standing_of, with_state, has_room, grown, closed_table};

use crate::cell::{Cell, State, close_cell, settle_cell, strike_cell};
use binary32::Word;
use checks::Flaw;

// As many cells as a sheet has.
const CELLS: u64 = 256;

// The cells by their numbers. The next one that is taken has the number `taken`; it is free, and so are all after it.
// An array and a count, and no `Vec`, since a sheet takes no memory but its own. No model either: clauses speak of the count and of
// single cells.
#[derive(Drop)]
pub(crate) struct Table {
    pub(crate) cells: [Cell; 256],
    taken: u64,
}

// Strikes what is pending.
fn close_cells(cells: &mut [Cell])
    ensures { cells.new ≡ map closed_cell cells.old }
{
    for cell in cells {
        close_cell(cell);
    }
}

impl Table {
    pub(crate) fn empty() -> Table
        ensures { result ≡ empty_table }
    {
        Table {
            cells: [Cell { state: State::Free }; 256],
            taken: 0,
        }
    }

    // The state of the cell with this number, free where there is none.
    pub(crate) fn state(&self, n: u64) -> State
        ensures { result ≡ state_at self.now n }
    {
        self.cells
            .get(n as usize)
            .map_or(State::Free, |cell| cell.state)
    }

    // Whether a cell is left to take.
    pub(crate) fn has_room(&self) -> bool
        ensures { result ≡ has_room (standing_of self.now) }
    {
        self.taken < CELLS
    }

    // Takes the next cell, and gives its number.
    pub(crate) fn take(&mut self, state: State) -> u64
        requires { self.old.taken < 256 }
        ensures number { result ≡ self.old.taken }
        ensures after { self.new ≡ grown self.old state }
    {
        let n = self.taken;
        self.cells[n as usize] = Cell { state };
        self.taken = n + 1;
        n
    }

    pub(crate) fn strike(&mut self, n: u64)
        requires { n < 256 }
        ensures { self.new ≡ with_state self.old n State.Struck }
    {
        strike_cell(&mut self.cells[n as usize]);
    }

    pub(crate) fn settle(&mut self, n: u64, word: Word, found: Result<(), Flaw>)
        requires { n < 256 }
        ensures { self.new ≡ with_state self.old n (settled_state word found) }
    {
        settle_cell(&mut self.cells[n as usize], word, found);
    }

    pub(crate) fn close(&mut self)
        ensures { self.new ≡ closed_table self.old }
    {
        close_cells(&mut self.cells);
    }
}
