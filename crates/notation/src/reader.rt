// A place in a line of text, from which the line is read on.
ghost use Rattle.std.specs.Prelude.{◌≡◌, ◌+◌, ◌≤◌, cond, length, OnOk, OnErr};
ghost use Rattle.notation.specs.Lines.{name_end};
ghost use Rattle.notation.specs.Places.{start_of, past, rest_of, name_here, stands_here, space_here, word_here, operand_here, end_here};

use crate::fault::Fault;
use crate::numeral::read_word;
use binary32::Word;
use std::marker::Model;

// What stands before the place was read. A fault leaves the place where it is.
#[derive(Drop)]
pub struct Reader<'a> {
    line: &'a [u8],
    at: usize,
}

impl<'a> Model for Reader<'a> {
    ghost use Rattle.std.specs.Prelude.{◌≤◌, length};
    ghost use Rattle.notation.specs.Places.{Place};

    ghost Value = { Place };

    ghost view = { λ r. record { line = r.line.now; at = r.at } };

    ghost invariant = { λ r. r.at ≤ length r.line.now };
}

// Where the name ends: at the first space, or at the line's end.
fn name_end(line: &[u8]) -> usize
    ensures value { result ≡ name_end line.now }
    ensures bound { result ≤ length line.now }
{
    line.iter()
        .position(|byte| *byte == b' ')
        .unwrap_or(line.len())
}

impl<'a> Reader<'a> {
    // The start of a line.
    pub fn new(line: &'a [u8]) -> Reader<'a>
        ensures { result ≡ start_of line.now }
    {
        Reader { line, at: 0 }
    }

    // What is left of the line.
    pub fn rest(&self) -> &'a [u8]
        ensures { result.now ≡ rest_of self.now }
    {
        let line = self.line;
        &line[self.at..]
    }

    // The text from here to the next space, or to the line's end.
    pub fn name(&mut self) -> &'a [u8]
        ensures text { result.now ≡ name_here self.old }
        ensures after { self.new ≡ past (name_end (rest_of self.old)) self.old }
    {
        let rest = self.rest();
        let end = name_end(rest);
        self.at += end;
        &rest[..end]
    }

    // Whether this text stands here. It is then passed over.
    pub fn skip(&mut self, text: &[u8]) -> bool
        ensures test { result ≡ stands_here text.now self.old }
        ensures after { self.new ≡ cond result (past (length text.now) self.old) self.old }
    {
        let stands = self.rest().starts_with(text);
        if stands {
            self.at += text.len();
        }
        stands
    }

    // The column of the byte that stands here, counted from 1.
    fn column(&self) -> usize
        ensures { result ≡ self.now.at + 1 }
    {
        self.at + 1
    }

    // The word that stands here.
    pub fn word(&mut self) -> Result<Word, Fault>
        ensures value { result ≡ word_here self.old }
        ensures after { OnOk result (self.new ≡ past 8 self.old) }
        ensures unmoved { OnErr result (self.new ≡ self.old) }
    {
        let start = self.column();
        let word = read_word(self.rest()).map_err(|count| Fault::BadDigit {
            column: start + count,
        })?;
        self.at += 8;
        Ok(word)
    }

    // A space that stands here.
    pub fn space(&mut self) -> Result<(), Fault>
        ensures value { result ≡ space_here self.old }
        ensures after { OnOk result (self.new ≡ past 1 self.old) }
        ensures unmoved { OnErr result (self.new ≡ self.old) }
    {
        let column = self.column();
        if self.skip(b" ") {
            Ok(())
        } else {
            Err(Fault::MissingWord { column })
        }
    }

    // The word after a space that stands here.
    pub fn operand(&mut self) -> Result<Word, Fault>
        ensures value { result ≡ operand_here self.old }
        ensures after { OnOk result (self.new ≡ past 9 self.old) }
        ensures unmoved { OnErr result (self.new ≡ self.old) }
    {
        // Copied by hand, since a type with a model and a lifetime cannot be `Copy`.
        let mut ahead = Reader {
            line: self.line,
            at: self.at,
        };
        ahead.space()?;
        let word = ahead.word()?;
        *self = ahead;
        Ok(word)
    }

    // That the line ends here.
    pub fn end(&self) -> Result<(), Fault>
        ensures { result ≡ end_here self.now }
    {
        let column = self.column();
        if self.at == self.line.len() {
            Ok(())
        } else {
            Err(Fault::TrailingText { column })
        }
    }
}
