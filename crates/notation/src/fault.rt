// What can be wrong with a line, and the message that says so.
ghost use Rattle.std.specs.Prelude.{Some};
ghost use Rattle.notation.specs.Messages.{message_of};

use std::fmt;

// What is wrong with a line, and in which column, counted from 1.
#[derive(Clone, Copy, PartialEq, Eq, Debug)]
pub enum Fault {
    // What stands before the first space is no operation's name.
    UnknownOperation,
    // No space stands here, where a word should follow.
    MissingWord { column: usize },
    // No digit stands here, within a word.
    BadDigit { column: usize },
    // The line goes on here, after its last value.
    TrailingText { column: usize },
}

impl fmt::Display for Fault {
    ghost output = { λ fault. Some (message_of fault) };

    fn fmt<W: fmt::Write>(&self, f: &mut fmt::Formatter<W>) -> fmt::Result {
        match self {
            Fault::UnknownOperation => write!(f, "column 1: no operation has this name"),
            Fault::MissingWord { column } => {
                write!(f, "column {column}: a space and a word should stand here")
            }
            Fault::BadDigit { column } => write!(
                f,
                "column {column}: a word has eight digits, 0-9 and A-F"
            ),
            Fault::TrailingText { column } => {
                write!(f, "column {column}: the line should end here")
            }
        }
    }
}
