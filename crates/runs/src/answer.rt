// What a sheet answers to calls. A ticket goes by its two numbers.
use binary32::Word;
use sheet::{Refusal, Stub};

#[derive(Clone, Copy, PartialEq, Eq, Debug)]
pub enum OpenAnswer {
    Input(Result<u64, Refusal>),
    Enter(Result<Stub, Refusal>),
    Settle(Result<u64, Refusal>),
    Strike(Result<u64, Refusal>),
    Read(Result<Word, Refusal>),
}

#[derive(Clone, Copy, PartialEq, Eq, Debug)]
pub enum ClosedAnswer {
    Read(Result<Word, Refusal>),
    ClosingNumber(u64),
    HandIn(Stub),
}
