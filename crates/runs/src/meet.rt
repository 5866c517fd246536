// One call, made on a sheet.
ghost use Rattle.std.specs.Prelude.{◌≡◌};
ghost use Rattle.sheet.specs.Calls.{Model, cells_of, close_after, opened};
ghost use Rattle.runs.specs.Replies.{open_reply, closed_reply};
ghost use Rattle.runs.specs.Sheets.{open_after};

use crate::answer::{ClosedAnswer, OpenAnswer};
use crate::call::{ClosedCall, OpenCall};
use sheet::{ClosedSheet, OpenSheet, Ticket};
use systems::System;

// A sheet in one of its phases, on which calls of one type are made, one after another.
pub(crate) trait Meets {
    type Call: Copy;

    type Answer;

    // The sheet without its system.
    ghost model: { Self → Model };

    // What is answered to a call.
    ghost reply: { Model → Self.Call → Self.Answer };

    // What the sheet is after a call.
    ghost after: { Model → Self.Call → Model };

    fn meet(&mut self, call: Self::Call) -> Self::Answer
        ensures reply { result ≡ reply (model self.old) call }
        ensures after { model self.new ≡ after (model self.old) call };
}

// An open sheet, and a closed one at which the tickets of its claims are handed in for their two numbers. The calls that spend
// a ticket later present one with the same numbers, which counts as the claim's own.
#[derive(Drop)]
pub(crate) struct Attended<S: System> {
    sheet: OpenSheet<S>,
    counter: ClosedSheet<S>,
}

impl<S: System> Attended<S> {
    pub(crate) fn new(serial: u32, weight: u64, system: S) -> Self
        ensures { result.sheet ≡ opened serial weight }
    {
        Attended {
            sheet: OpenSheet::new(serial, weight, system),
            counter: OpenSheet::new(serial, weight, system).close(),
        }
    }

    pub(crate) fn close(self) -> ClosedSheet<S>
        ensures { result ≡ close_after self.sheet }
    {
        let Attended { sheet, .. } = self;
        sheet.close()
    }
}

impl<S: System> Meets for Attended<S> {
    type Call = OpenCall;

    type Answer = OpenAnswer;

    ghost model = { λ attended. attended.sheet };

    ghost reply = { λ m call. open_reply m.serial (cells_of m) call };

    ghost after = { open_after };

    fn meet(&mut self, call: OpenCall) -> OpenAnswer {
        match call {
            OpenCall::Input(word) => OpenAnswer::Input(self.sheet.input(word)),
            OpenCall::Enter {
                code,
                first,
                second,
                word,
            } => {
                let counter = &self.counter;
                let entered = self.sheet.enter(code, first, second, word);
                OpenAnswer::Enter(entered.map(|ticket| counter.hand_in(ticket)))
            }
            OpenCall::Settle { ticket, hints } => {
                OpenAnswer::Settle(self.sheet.settle(Ticket::from(ticket), hints))
            }
            OpenCall::Strike(ticket) => OpenAnswer::Strike(self.sheet.strike(Ticket::from(ticket))),
            OpenCall::Read(cell) => OpenAnswer::Read(self.sheet.read(cell)),
        }
    }
}

impl<S: System> Meets for ClosedSheet<S> {
    type Call = ClosedCall;

    type Answer = ClosedAnswer;

    ghost model = { λ sheet. sheet };

    ghost reply = { λ m call. closed_reply S.modulus m.weight (cells_of m) call };

    // Nothing alters a closed sheet.
    ghost after = { λ m _. m };

    fn meet(&mut self, call: ClosedCall) -> ClosedAnswer {
        match call {
            ClosedCall::Read(cell) => ClosedAnswer::Read(self.read(cell)),
            ClosedCall::ClosingNumber => ClosedAnswer::ClosingNumber(self.closing_number()),
            ClosedCall::HandIn(ticket) => ClosedAnswer::HandIn(self.hand_in(Ticket::from(ticket))),
        }
    }
}
