// The six hints that back a rounded step, and the writer that gives the word of a step with its hints.
#![tactic(auto)]

mod hint;
mod leaves;
mod place;
mod radicand;
mod refusal;
mod setting;
mod writer;

pub use hint::Hint;
pub use place::Cut;
pub use refusal::{Layer, Refusal};
pub use setting::{Case, Kind, Setting};
pub use writer::{Hints, Written, write_step, write_word};
