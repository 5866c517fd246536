// Steps as lines: the operation's name, then a space and eight digits for each operand, then the end.
ghost use Rattle.std.specs.Prelude.{◌≡◌, Some};
ghost use Rattle.notation.specs.Lines.{line_of, operands_of, read_step, ReadsBack};

use crate::fault::Fault;
use crate::name::{name_of, operation_named};
use crate::numeral::Numeral;
use crate::reader::Reader;
use binary32::{Operation, Word};
use std::fmt;

// An operation on words. The second word of a square root is zero, as an operation takes two words and a root does not look at
// its second: an `Option` is no plainer, since every user would fill it.
#[derive(Clone, Copy, PartialEq, Eq, Debug)]
pub struct Request {
    pub operation: Operation,
    pub first: Word,
    pub second: Word,
}

// A request as the line that it is read from.
impl fmt::Display for Request {
    ghost output = { λ request. Some (line_of request.operation request.first request.second) };

    fn fmt<W: fmt::Write>(&self, f: &mut fmt::Formatter<W>) -> fmt::Result {
        let name = name_of(self.operation);
        let first = Numeral(self.first);
        let second = Numeral(self.second);
        if self.operation.is_root() {
            write!(f, "{name} {first}")
        } else {
            write!(f, "{name} {first} {second}")
        }
    }
}

// The request of an operation whose operands stand from here to the line's end.
#[tactic(auto, unfolding(crate::specs::Lines::operands_of))]
fn operands(mut reader: Reader, operation: Operation) -> Result<Request, Fault>
    ensures { result ≡ operands_of reader.entry.line reader.entry.at operation }
{
    let first = reader.operand()?;
    let second = if operation.is_root() {
        Word::ZERO
    } else {
        reader.operand()?
    };
    reader.end()?;
    Ok(Request {
        operation,
        first,
        second,
    })
}

// The law of lines: one that a step is written as is read as that step. There is nothing to do. It is a function, so that
// `read_step` has the law at hand, and the check finds the rest of that proof in its body.
fn reads_back(line: &[u8])
    ensures { ReadsBack line.now (read_step line.now) }
{}

// The step of a line, or what is wrong with the line. A written step is read back.
pub fn read_step(line: &[u8]) -> Result<Request, Fault>
    ensures value { result ≡ read_step line.now }
    ensures read { ReadsBack line.now result }
{
    reads_back(line);
    let mut reader = Reader::new(line);
    let operation = operation_named(reader.name()).ok_or(Fault::UnknownOperation)?;
    operands(reader, operation)
}
