// An open sheet: words are put in, claims entered, settled and struck.
ghost use Rattle.std.specs.Prelude.{◌≡◌};
ghost use Rattle.sheet.specs.Calls.{found as found_in, cells_of, opened, input_reply, input_after, enter_reply, enter_after, presented, answer_of, settle_reply, settle_after, strike_reply, strike_after, close_after};
ghost use Rattle.sheet.specs.Right.{Refused, Right};
ghost use Rattle.sheet.specs.Tickets.{ticket_of};

use crate::cell::State;
use crate::operands::{allow, first_word, second_word};
use crate::phase::{ClosedSheet, OpenSheet, Sheet};
use crate::refusal::Refusal;
use crate::table::Table;
use crate::ticket::{Stub, Ticket};
use binary32::{Operation, Word};
use checks::{Flaw, examine};
use hints::{Hints, Written};
use std::marker::PhantomData;
use systems::System;

// What a settled cell's holder is told of the first check that its claim failed, if any.
fn answer(cell: u64, found: Result<(), Flaw>) -> Result<u64, Refusal>
    ensures { result ≡ answer_of cell found }
{
    found.map_err(|flaw| Refusal::Flawed { cell, flaw })?;
    Ok(cell)
}

impl<S: System> OpenSheet<S> {
    // A sheet of which no cell is taken. Tickets for it have its serial. Serial and weight are no struct, which is no plainer: the one
    // goes into tickets, the other into the closing number.
    pub fn new(serial: u32, weight: u64, system: S) -> Self
        ensures { result ≡ opened serial weight }
    {
        Sheet {
            system,
            serial,
            weight,
            table: Table::empty(),
            phase: PhantomData,
        }
    }

    // Takes a cell for a word that is given, and returns the cell's number.
    pub fn input(&mut self, word: Word) -> Result<u64, Refusal>
        ensures reply { result ≡ input_reply (cells_of self.old) }
        ensures after { self.new ≡ input_after self.old word }
    {
        if self.table.has_room() {
            Ok(self.table.take(State::Input(word)))
        } else {
            Err(Refusal::Full)
        }
    }

    // Takes a cell for a claim: that the operation with this code, on the words of two cells, has this word. The ticket is what
    // the claim is settled or struck with. By a rule any code may be presented, and is refused in its turn. The four are no
    // struct: it would be taken apart here at once, since the cell holds the operation and not the code.
    pub fn enter(
        &mut self,
        code: u32,
        first: u64,
        second: u64,
        word: Word,
    ) -> Result<Ticket, Refusal>
        ensures reply { result ≡ enter_reply self.old.serial (cells_of self.old) code first second }
        ensures after { self.new ≡ enter_after self.old code first second word }
    {
        let operation = allow(&self.table, code, first, second)?;
        let cell = self.table.take(State::Pending {
            operation,
            first,
            second,
            word,
        });
        Ok(Ticket::new(self.serial, cell))
    }

    // The state of the cell that a ticket names.
    fn presented(&self, stub: Stub) -> State
        ensures { result ≡ presented self.now.serial (cells_of self.now) (ticket_of stub) }
    {
        if stub.serial == self.serial {
            self.table.state(stub.cell)
        } else {
            State::Free
        }
    }

    // What the checks find in a pending claim, examined with the words of the cells that it names.
    #[tactic(auto, unfolding(crate::specs::Calls::found))]
    fn examine_claim(
        &self,
        operation: Operation,
        first: u64,
        second: u64,
        claimed: Written,
    ) -> Result<(), Flaw>
        ensures { result ≡ found_in (cells_of self.now) operation first second claimed.word claimed.hints }
    {
        let a = first_word(&self.table, first);
        let b = second_word(&self.table, operation, second);
        examine(&self.system, operation, a, b, claimed)
    }

    fn settle_stub(&mut self, stub: Stub, hints: Hints) -> Result<u64, Refusal>
        ensures reply { result ≡ settle_reply self.old.serial (cells_of self.old) (ticket_of stub) hints }
        ensures after { self.new ≡ settle_after self.old (ticket_of stub) hints }
    {
        match self.presented(stub) {
            State::Pending {
                operation,
                first,
                second,
                word,
            } => {
                let claimed = Written { word, hints };
                let found = self.examine_claim(operation, first, second, claimed);
                self.table.settle(stub.cell, word, found);
                answer(stub.cell, found)
            }
            _ => Err(Refusal::BadTicket),
        }
    }

    // Examines a pending claim. It is accepted with its word where no check fails, and struck where one does. It is accepted just
    // where its word and its hints are what the writer gives.
    #[tactic(auto, using(crate::proofs::Found::refused_reply, crate::proofs::Found::right_reply))]
    pub fn settle(&mut self, ticket: Ticket, hints: Hints) -> Result<u64, Refusal>
        ensures reply { result ≡ settle_reply self.old.serial (cells_of self.old) ticket hints }
        ensures after { self.new ≡ settle_after self.old ticket hints }
        ensures right { Right self.old ticket hints result }
        ensures refused { Refused self.old ticket result self.new }
    {
        self.settle_stub(ticket.spend(), hints)
    }

    // Gives a pending claim up.
    pub fn strike(&mut self, ticket: Ticket) -> Result<u64, Refusal>
        ensures reply { result ≡ strike_reply self.old.serial (cells_of self.old) ticket }
        ensures after { self.new ≡ strike_after self.old ticket }
    {
        let stub = ticket.spend();
        match self.presented(stub) {
            State::Pending { .. } => {
                self.table.strike(stub.cell);
                Ok(stub.cell)
            }
            _ => Err(Refusal::BadTicket),
        }
    }

    // Ends the entering and settling of claims, and strikes those that are pending.
    pub fn close(self) -> ClosedSheet<S>
        ensures { result ≡ close_after self }
    {
        let Sheet {
            system,
            serial,
            weight,
            mut table,
            ..
        } = self;
        table.close();
        Sheet {
            system,
            serial,
            weight,
            table,
            phase: PhantomData,
        }
    }
}
