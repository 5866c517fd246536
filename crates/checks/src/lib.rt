// A claimed word and its six hints, examined in any number system: the first check that fails is the answer.
#![tactic(auto)]

mod claim;
mod equation;
mod flaw;
#[cfg(test)]
mod tests;
mod width;

pub use claim::examine;
pub use flaw::Flaw;
