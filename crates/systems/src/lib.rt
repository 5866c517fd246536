// Number systems: arithmetic on remainders, in which equations between products of 64-bit numbers are tested.
#![tactic(auto)]

mod equation;
mod pair;
mod residue;
mod system;
#[cfg(test)]
mod tests;
mod wrapping;

pub use equation::Equation;
pub use pair::{Pair, Residues};
pub use system::System;
pub use wrapping::{Wrapped, Wrapping};
