// Requests as lines: five words with a space between two, and before them `forged ` where a hint is to be forged.
ghost use Rattle.std.specs.Prelude.{◌≡◌};
ghost use Rattle.regions.specs.Requests.{request_from, read_request};

use binary32::Word;
use notation::{Fault, Reader};

#[derive(Clone, Copy, PartialEq, Eq, Debug)]
pub struct Point {
    pub x: Word,
    pub y: Word,
}

// Whether the position lies within the radius of the centre.
#[derive(Clone, Copy, PartialEq, Eq, Debug)]
pub struct Request {
    pub position: Point,
    pub centre: Point,
    pub radius: Word,
    // Whether the root is settled with a hint that is not the writer's.
    pub forged: bool,
}

// The request whose words stand from here to the line's end.
#[tactic(auto, unfolding(crate::specs::Requests::request_from))]
fn words_from(mut reader: Reader, forged: bool) -> Result<Request, Fault>
    ensures { result ≡ request_from reader.entry.line reader.entry.at forged }
{
    let position = Point {
        x: reader.word()?,
        y: reader.operand()?,
    };
    let centre = Point {
        x: reader.operand()?,
        y: reader.operand()?,
    };
    let radius = reader.operand()?;
    reader.end()?;
    Ok(Request {
        position,
        centre,
        radius,
        forged,
    })
}

// The request of a line, or what is wrong with the line.
pub fn read_request(line: &[u8]) -> Result<Request, Fault>
    ensures { result ≡ read_request line.now }
{
    let mut reader = Reader::new(line);
    let forged = reader.skip(b"forged ");
    words_from(reader, forged)
}
