// A sheet of checked steps: inputs, claims that wait for their hints, and words that were accepted.
#![tactic(auto)]

mod cell;
mod closed;
mod closing;
mod opened;
mod operands;
mod phase;
mod refusal;
mod table;
mod ticket;

pub use cell::{Cell, State};
pub use phase::{Closed, ClosedSheet, Open, OpenSheet, Sheet};
pub use refusal::{Operand, Refusal, Values};
pub use ticket::{Stub, Ticket};
