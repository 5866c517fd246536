// Vectors: the word that a step should have, as eight digits, then a space and the step.
ghost use Rattle.std.specs.Prelude.{◌≡◌};
ghost use Rattle.std.specs.Result.{result_ok};
ghost use Rattle.writing.specs.Verdicts.{expecting, vector_of};

use binary32::Word;
use notation::{Fault, Reader, Request, read_step};

// A step, and the word that it is expected to have.
#[derive(Clone, Copy, PartialEq, Eq, Debug)]
pub struct Vector {
    pub expected: Word,
    pub request: Request,
}

// The vector that expects this word of a step, or what is wrong with the step.
fn expecting(expected: Word, step: Result<Request, Fault>) -> Result<Vector, Fault>
    ensures { result_ok result ≡ expecting expected step }
{
    let request = step?;
    Ok(Vector { expected, request })
}

// The vector of a line, or what is wrong with the line.
fn parsed(line: &[u8]) -> Result<Vector, Fault>
    ensures { result_ok result ≡ vector_of line.now }
{
    let mut reader = Reader::new(line);
    let expected = reader.word()?;
    reader.space()?;
    expecting(expected, read_step(reader.rest()))
}

// The vector of a line, if the line is one.
pub fn read_vector(line: &[u8]) -> Option<Vector>
    ensures { result ≡ vector_of line.now }
{
    parsed(line).ok()
}
