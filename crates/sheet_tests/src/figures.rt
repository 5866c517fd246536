// The sheet and the figures that the tests start from.
use binary32::Word;
use hints::{Hints, Layer};
use sheet::{OpenSheet, Refusal, Values};
use std::process::Abort;
use std::test::Fail;
use systems::System;

pub(crate) const TWO: Word = Word { bits: 0x4000_0000 };

// Those of 1 + 1 = 2.
pub(crate) const TWICE_ONE: Hints = Hints {
    main: 0x4_0000_0000_0000,
    rest: 0,
    lift: 0,
    keep: 0x80_0000,
    drop: 0,
    up: 0,
};

// A sheet with the serial 7 and twice the word 1.
pub(crate) fn started<S: System>(rt: &impl Abort, system: S, weight: u64) -> OpenSheet<S> {
    let mut sheet = OpenSheet::new(7, weight, system);
    assert_eq!(rt; sheet.input(Word::ONE), Ok(0));
    assert_eq!(rt; sheet.input(Word::ONE), Ok(1));
    sheet
}

// A claim of 1 + 1 = 2 on the first two cells, settled with its hints.
pub(crate) fn settle_twice_one<S: System>(sheet: &mut OpenSheet<S>) -> Result<u64, Fail> {
    let ticket = sheet.enter(1, 0, 1, TWO)?;
    Ok(sheet.settle(ticket, TWICE_ONE)?)
}

// The refusal of a claim; one that is allowed is struck again.
pub(crate) fn refused<S: System>(
    sheet: &mut OpenSheet<S>,
    code: u32,
    first: u64,
    second: u64,
) -> Option<Refusal> {
    let entered = sheet.enter(code, first, second, Word::ONE);
    entered.map(|ticket| sheet.strike(ticket)).err()
}

// What a refusal tells: its number, its two values, and its layer, as a row of the table of refusals has them.
pub(crate) fn tells(
    rt: &impl Abort,
    refusal: Option<Refusal>,
    number: u32,
    first: u64,
    second: u32,
    layer: Layer,
) -> Result<(), Fail> {
    let refusal = refusal.ok_or("nothing was refused")?;
    assert_eq!(rt; refusal.number(), number);
    assert_eq!(rt; refusal.values(), Values { first, second });
    assert_eq!(rt; refusal.layer(), layer);
    Ok(())
}
