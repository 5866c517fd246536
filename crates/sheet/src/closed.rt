// A closed sheet: its cells are read, and nothing alters it.
ghost use Rattle.std.specs.Prelude.{◌≡◌};
ghost use Rattle.sheet.specs.Calls.{cells_of};
ghost use Rattle.sheet.specs.Closing.{closing_number};
ghost use Rattle.sheet.specs.Tickets.{ticket_of};

use crate::closing::fold_words;
use crate::phase::ClosedSheet;
use crate::ticket::{Stub, Ticket};
use systems::System;

impl<S: System> ClosedSheet<S> {
    // From 0, for each accepted cell in order of its number: times the weight, plus the word, in the sheet's system.
    pub fn closing_number(&self) -> u64
        ensures { result ≡ closing_number S.modulus self.now.weight (cells_of self.now) }
    {
        fold_words(&self.system, self.weight, &self.table)
    }

    // Takes back any ticket, and says what it named.
    pub fn hand_in(&self, ticket: Ticket) -> Stub
        ensures { ticket_of result ≡ ticket }
    {
        ticket.spend()
    }
}
