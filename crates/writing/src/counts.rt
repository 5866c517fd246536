// How many vectors of each operation agree with the writer, and how many differ.
ghost use Rattle.std.specs.Prelude.{◌≡◌, ◌<◌, Some};
ghost use Rattle.writing.specs.Tallies.{none_judged, one_judged, nothing, place_of, count_of, added};
ghost use Rattle.writing.specs.Texts.{count_text};

use crate::verdict::{NoVector, Verdict};
use binary32::Operation;
use std::fmt;

// How many vectors agree, and how many differ. Each number stops at the end of its type.
#[derive(Clone, Copy, PartialEq, Eq, Debug)]
pub struct Count {
    pub agreeing: u64,
    pub differing: u64,
}

impl Count {
    fn none() -> Count
        ensures { result ≡ none_judged }
    {
        Count {
            agreeing: 0,
            differing: 0,
        }
    }

    // The count with one verdict more.
    fn with(self, verdict: Verdict) -> Count
        ensures { result ≡ one_judged self verdict }
    {
        match verdict {
            Verdict::Agrees(_) => Count {
                agreeing: self.agreeing.saturating_add(1),
                ..self
            },
            Verdict::Differs { .. } => Count {
                differing: self.differing.saturating_add(1),
                ..self
            },
        }
    }
}

impl fmt::Display for Count {
    ghost output = { λ count. Some (count_text count) };

    fn fmt<W: fmt::Write>(&self, f: &mut fmt::Formatter<W>) -> fmt::Result {
        let Count {
            agreeing,
            differing,
        } = *self;
        write!(f, "{agreeing} agree, {differing} differ")
    }
}

// The operations stand in the order of their codes.
#[derive(Clone, Copy, PartialEq, Eq, Debug)]
pub struct Counts {
    each: [Count; 8],
    // Those of all operations.
    pub all: Count,
    // Lines that are no vector.
    pub unread: u64,
}

// The place of an operation in an array, from 0.
fn place(operation: Operation) -> usize
    ensures value { result ≡ place_of operation }
    ensures bound { result < 8 }
{
    u32::from(operation) as usize - 1
}

impl Counts {
    pub fn new() -> Counts
        ensures { result ≡ nothing }
    {
        Counts {
            each: [Count::none(); 8],
            all: Count::none(),
            unread: 0,
        }
    }

    // Counts one line more: what is said of its vector, if it is one.
    pub fn add(&mut self, verdict: Result<Verdict, NoVector>)
        ensures { self.new ≡ added self.old verdict }
    {
        match verdict {
            Ok(verdict) => {
                let i = place(verdict.operation());
                self.each[i] = self.each[i].with(verdict);
                self.all = self.all.with(verdict);
            }
            Err(NoVector) => self.unread = self.unread.saturating_add(1),
        }
    }

    // How many vectors of the operation agree, and how many differ.
    pub fn count_of(&self, operation: Operation) -> Count
        ensures { result ≡ count_of self.now operation }
    {
        self.each[place(operation)]
    }
}
