// Vectors held to the writer.
ghost use Rattle.std.specs.Prelude.{◌≡◌, Some};
ghost use Rattle.writing.specs.Texts.{verdict_text, no_vector_text};
ghost use Rattle.writing.specs.Verdicts.{operation_of, meant_by, verdict_on, judged};

use crate::vector::read_vector;
use binary32::{Class, Operation, Word};
use hints::write_step;
use notation::{Numeral, name_of};
use std::fmt;

#[derive(Clone, Copy, PartialEq, Eq, Debug)]
pub enum Verdict {
    // The writer gives the expected word.
    Agrees(Operation),
    Differs {
        operation: Operation,
        expected: Word,
        found: Word,
    },
}

// The line is no vector.
#[derive(Clone, Copy, PartialEq, Eq, Debug)]
pub struct NoVector;

// Any expected NaN stands for the one word that every NaN result is.
pub fn meant_by(expected: Word) -> Word
    ensures { result ≡ meant_by expected }
{
    match expected.class() {
        Class::Nan => Word::NAN,
        _ => expected,
    }
}

fn verdict_on(operation: Operation, expected: Word, found: Word) -> Verdict
    ensures { result ≡ verdict_on operation expected found }
{
    if expected == found {
        Verdict::Agrees(operation)
    } else {
        Verdict::Differs {
            operation,
            expected,
            found,
        }
    }
}

// Whether the writer gives the word that the line's vector expects, if the line is one.
pub fn judge(line: &[u8]) -> Result<Verdict, NoVector>
    ensures { result ≡ judged line.now }
{
    let vector = read_vector(line).ok_or(NoVector)?;
    let step = vector.request;
    let written = write_step(step.operation, step.first, step.second);
    Ok(verdict_on(step.operation, meant_by(vector.expected), written.word))
}

impl Verdict {
    // The operation of the vector.
    pub fn operation(self) -> Operation
        ensures { result ≡ operation_of self }
    {
        match self {
            Verdict::Agrees(operation) | Verdict::Differs { operation, .. } => operation,
        }
    }
}

impl fmt::Display for Verdict {
    ghost output = { λ verdict. Some (verdict_text verdict) };

    fn fmt<W: fmt::Write>(&self, f: &mut fmt::Formatter<W>) -> fmt::Result {
        match self {
            Verdict::Agrees(operation) => {
                let name = name_of(*operation);
                write!(f, "{name} agrees")
            }
            Verdict::Differs {
                operation,
                expected,
                found,
            } => {
                let name = name_of(*operation);
                let expected = Numeral(*expected);
                let found = Numeral(*found);
                write!(f, "{name}: expected {expected}, the writer gives {found}")
            }
        }
    }
}

impl fmt::Display for NoVector {
    ghost output = { λ _. Some no_vector_text };

    fn fmt<W: fmt::Write>(&self, f: &mut fmt::Formatter<W>) -> fmt::Result {
        write!(f, "no vector")
    }
}
