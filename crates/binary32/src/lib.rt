// Binary32 words and the operations on them: the fields and the class of a word, and the step that an
// operation takes on two words, which is direct or has to be rounded.
#![tactic(auto)]

mod operation;
mod step;
mod word;

pub use operation::{Operation, UnknownCode};
pub use step::{Exact, Step};
pub use word::{Class, NormalForm, Word};
