// The writer's answers to lines of text, and vectors held to it: lines that also say which word a step has.
#![tactic(auto)]

mod answer;
mod counts;
mod tally;
mod text;
mod vector;
mod verdict;

pub use answer::{Answer, answer_to};
pub use counts::{Count, Counts};
pub use tally::Tally;
pub use vector::{Vector, read_vector};
pub use verdict::{NoVector, Verdict, judge, meant_by};
