// The writer's answer to a line of text.
ghost use Rattle.std.specs.Prelude.{◌≡◌, Some};
ghost use Rattle.writing.specs.Answers.{answer_to};
ghost use Rattle.writing.specs.Texts.{answer_text};

use crate::text::HintsLine;
use hints::{Written, write_step};
use notation::{Fault, Numeral, Request, read_step};
use std::fmt;

// The step that the line asks for, with its word and its hints.
#[derive(Clone, Copy, PartialEq, Eq, Debug)]
pub struct Answer {
    pub request: Request,
    pub written: Written,
}

// The step of the line as the writer gives it, or what is wrong with the line.
pub fn answer_to(line: &[u8]) -> Result<Answer, Fault>
    ensures { result ≡ answer_to line.now }
{
    let request = read_step(line)?;
    let written = write_step(request.operation, request.first, request.second);
    Ok(Answer { request, written })
}

impl fmt::Display for Answer {
    ghost output = { λ answer. Some (answer_text answer) };

    fn fmt<W: fmt::Write>(&self, f: &mut fmt::Formatter<W>) -> fmt::Result {
        let Answer { request, written } = *self;
        let word = Numeral(written.word);
        let hints = HintsLine(written.hints);
        write!(f, "{request} = {word}: {hints}")
    }
}
