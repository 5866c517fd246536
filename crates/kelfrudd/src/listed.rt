// A list of rows, put on a sheet one after the other.
ghost use Rattle.std.specs.Prelude.{◌≡◌, length};
ghost use Rattle.kelfrudd.specs.SystemNames.{modulus_of};
ghost use Rattle.kelfrudd.specs.Listed.{stop_for, ran_over, concluded};

use crate::refusal::Refusal;
use crate::row::take_row;
use crate::system_name::SystemName;
use sheet::OpenSheet;
use systems::{Pair, System, Wrapping};

// Why a list was not taken to its end: how many rows passed before, and the refusal of the next.
#[derive(Clone, Copy, PartialEq, Eq, Debug)]
pub(crate) struct Stop {
    pub(crate) passed: u64,
    pub(crate) refusal: Refusal,
}

impl Stop {
    // A list that is stopped at the row with this index: the rows before it passed.
    fn at(n: usize, refusal: Refusal) -> Stop
        ensures { result ≡ stop_for n refusal }
    {
        Stop {
            passed: n as u64,
            refusal,
        }
    }
}

// Rows of ten numbers, and what a sheet for them is opened with.
#[derive(Clone, Copy, PartialEq, Eq, Debug)]
pub(crate) struct Listed<'a> {
    pub(crate) serial: u32,
    pub(crate) weight: u64,
    pub(crate) rows: &'a [[u64; 10]],
}

impl Listed<'_> {
    // Puts every row on a new sheet, and closes it: its closing number, or why the list was stopped.
    #[tactic(auto, using(crate::proofs::Ran::ran_none))]
    fn conclude<S: System>(self, system: S) -> Result<u64, Stop>
        ensures { result ≡ concluded S.modulus (ran_over self.entry.serial self.entry.weight self.entry.rows.now (length self.entry.rows.now)) }
    {
        let mut sheet = OpenSheet::new(self.serial, self.weight, system);
        for (n, numbers) in self.rows.iter().enumerate() {
            take_row(&mut sheet, *numbers).map_err(|refusal| Stop::at(n, refusal))?;
        }
        Ok(sheet.close().closing_number())
    }

    // The same in a system that is named.
    pub(crate) fn conclude_in(self, name: SystemName) -> Result<u64, Stop>
        ensures { result ≡ concluded (modulus_of name) (ran_over self.entry.serial self.entry.weight self.entry.rows.now (length self.entry.rows.now)) }
    {
        match name {
            SystemName::Wrapping => self.conclude(Wrapping),
            SystemName::Pair => self.conclude(Pair),
        }
    }
}
