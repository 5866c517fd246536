// Steps worked out by hand, entered and settled.
use binary32::Word;
use hints::Hints;
use sheet::OpenSheet;
use std::process::Abort;
use std::test::Fail;
use systems::{Pair, System, Wrapping};

// A step with its word and its hints, which are main, rest, lift, keep, drop and up.
#[derive(Clone, Copy)]
struct Row {
    code: u32,
    first: u32,
    second: u32,
    word: u32,
    hints: [u64; 6],
}

impl Row {
    fn of(code: u32, first: u32, second: u32, word: u32, hints: [u64; 6]) -> Row {
        Row {
            code,
            first,
            second,
            word,
            hints,
        }
    }
}

fn settles<S: System>(rt: &impl Abort, system: S, row: Row) -> Result<(), Fail> {
    let hints = Hints::from(row.hints);
    let word = Word { bits: row.word };
    let mut sheet = OpenSheet::new(7, 1, system);
    assert_eq!(rt; sheet.input(Word { bits: row.first }), Ok(0));
    assert_eq!(rt; sheet.input(Word { bits: row.second }), Ok(1));
    let ticket = sheet.enter(row.code, 0, 1, word)?;
    assert_eq!(rt; sheet.settle(ticket, hints), Ok(2));
    assert_eq!(rt; sheet.read(2), Ok(word));
    Ok(())
}

fn settles_in_both(rt: &impl Abort, row: Row) -> Result<(), Fail> {
    settles(rt, Wrapping, row)?;
    settles(rt, Pair, row)
}

#[test]
fn one_and_one(rt: HostRuntime) -> Result<(), Fail> {
    let hints = [1 << 50, 0, 0, 1 << 23, 0, 0];
    settles_in_both(
        &rt,
        Row::of(1, 0x3F80_0000, 0x3F80_0000, 0x4000_0000, hints),
    )
}

// Half of the spacing above 1, to the even side.
#[test]
fn ties(rt: HostRuntime) -> Result<(), Fail> {
    let down = [(1 << 49) + (1 << 25), 0, 1, 1 << 23, 1 << 26, 0];
    settles_in_both(&rt, Row::of(1, 0x3F80_0000, 0x3380_0000, 0x3F80_0000, down))?;
    let up = [
        (1 << 49) + (1 << 26) + (1 << 25),
        0,
        1,
        (1 << 23) + 1,
        1 << 26,
        1,
    ];
    settles_in_both(&rt, Row::of(1, 0x3F80_0001, 0x3380_0000, 0x3F80_0002, up))
}

#[test]
fn cancellation(rt: HostRuntime) -> Result<(), Fail> {
    let hints = [1 << 25, 0, 25, 1 << 23, 0, 0];
    settles_in_both(
        &rt,
        Row::of(2, 0x3F80_0000, 0x3F7F_FFFF, 0x3380_0000, hints),
    )
}

// A tie between the highest finite word and 2^128.
#[test]
fn overflow(rt: HostRuntime) -> Result<(), Fail> {
    let hints = [(1 << 50) - (1 << 25), 0, 1, (1 << 24) - 1, 1 << 26, 1];
    settles_in_both(
        &rt,
        Row::of(1, 0x7F7F_FFFF, 0x7300_0000, 0x7F80_0000, hints),
    )
}

// Half of the least word, and one and a half of it.
#[test]
fn underflow(rt: HostRuntime) -> Result<(), Fail> {
    let half = [1 << 46, 0, 4, 0, 1 << 50, 0];
    settles_in_both(&rt, Row::of(3, 1, 0x3F00_0000, 0, half))?;
    let one_and_a_half = [3 << 45, 0, 4, 1, 1 << 49, 1];
    settles_in_both(&rt, Row::of(3, 3, 0x3F00_0000, 2, one_and_a_half))
}

// A third: on the tie by its bits, above it by what is left over.
#[test]
fn third(rt: HostRuntime) -> Result<(), Fail> {
    let hints = [44739242, 8388608, 25, 11184810, 1 << 26, 1];
    settles_in_both(
        &rt,
        Row::of(4, 0x3F80_0000, 0x4040_0000, 0x3EAA_AAAB, hints),
    )
}

#[test]
fn root_of_two(rt: HostRuntime) -> Result<(), Fail> {
    let hints = [23726566, 19268956, 26, 11863283, 0, 0];
    settles_in_both(&rt, Row::of(5, 0x4000_0000, 0, 0x3FB5_04F3, hints))
}

// A direct step has six zeros.
#[test]
fn direct(rt: HostRuntime) -> Result<(), Fail> {
    settles_in_both(&rt, Row::of(3, 0, 0x3F80_0000, 0, [0; 6]))
}
