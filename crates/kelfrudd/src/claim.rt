// What is claimed of a step.
use hints::Written;

// That the operation with this code, on two operands, has a word that the hints back. The operands are words, or the cells that have them.
#[derive(Clone, Copy, PartialEq, Eq, Debug)]
pub(crate) struct Claim<T> {
    pub(crate) code: u32,
    pub(crate) first: T,
    pub(crate) second: T,
    pub(crate) written: Written,
}
