// Requests whether a position lies within the radius of a centre, by steps of binary32 arithmetic: their text, the calls on a sheet
// that show it, and what the answers to those calls say.
#![tactic(auto)]

mod calls;
mod claims;
mod count;
mod findings;
mod reading;
mod text;

pub use calls::plan;
pub use claims::Claim;
pub use count::Tally;
pub use findings::{Outcome, Report, Step, Verdict, report_on};
pub use reading::{Point, Request, read_request};
