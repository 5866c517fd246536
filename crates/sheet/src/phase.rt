// A sheet and its two phases: it is open until it is closed, and what a phase does not allow has no method there.
ghost use Rattle.std.specs.Prelude.{◌≡◌};
ghost use Rattle.sheet.specs.Calls.{cells_of, read_reply};

use crate::cell::word_in;
use crate::refusal::Refusal;
use crate::table::Table;
use binary32::Word;
use std::marker::{Model, PhantomData};
use systems::System;

// Words are put in, and claims entered, settled and struck.
#[derive(Clone, Copy)]
pub struct Open;

// Nothing alters the cells.
#[derive(Clone, Copy)]
pub struct Closed;

#[derive(Drop)]
pub struct Sheet<S: System, P> {
    pub(crate) system: S,
    pub(crate) serial: u32,
    pub(crate) weight: u64,
    pub(crate) table: Table,
    pub(crate) phase: PhantomData<P>,
}

// Contracts see a sheet without its system, an open one and a closed one alike.
impl<S: System, P> Model for Sheet<S, P> {
    ghost use Rattle.sheet.specs.Calls.{Model};

    ghost Value = { Model };

    ghost view = { λ sheet. record { serial = sheet.serial; weight = sheet.weight; table = sheet.table } };
}

pub type OpenSheet<S> = Sheet<S, Open>;

pub type ClosedSheet<S> = Sheet<S, Closed>;

impl<S: System, P> Sheet<S, P> {
    // The word of an accepted cell.
    pub fn read(&self, cell: u64) -> Result<Word, Refusal>
        ensures { result ≡ read_reply (cells_of self.now) cell }
    {
        word_in(self.table.state(cell))
    }
}
