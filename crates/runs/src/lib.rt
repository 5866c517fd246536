// Lists of calls on a sheet as data, and their replay on two sheets.
#![tactic(auto)]

mod answer;
mod call;
mod meet;
mod run;

pub use answer::{ClosedAnswer, OpenAnswer};
pub use call::{ClosedCall, OpenCall};
pub use run::{Answers, Replayed, Run, replay};
