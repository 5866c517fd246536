// The calls that a sheet can meet, as data. A call that the state of a sheet does not allow cannot be written: the calls on an
// open sheet and those on a closed one are of two types. A ticket goes by its two numbers.
use binary32::Word;
use hints::Hints;
use sheet::Stub;

// A call on an open sheet. `Enter` has its four as they are presented, right or wrong: a code and a struct for them are no plainer, since a sheet takes them so.
#[derive(Clone, Copy, PartialEq, Eq, Debug)]
pub enum OpenCall {
    Input(Word),
    Enter {
        code: u32,
        first: u64,
        second: u64,
        word: Word,
    },
    Settle {
        ticket: Stub,
        hints: Hints,
    },
    Strike(Stub),
    Read(u64),
}

// A call on a closed sheet.
#[derive(Clone, Copy, PartialEq, Eq, Debug)]
pub enum ClosedCall {
    Read(u64),
    ClosingNumber,
    HandIn(Stub),
}
