// What can be put in and entered: room, codes and operand cells.
use crate::figures::{TWICE_ONE, TWO, refused, started, tells};
use binary32::Word;
use hints::{Hints, Layer};
use sheet::OpenSheet;
use std::process::Abort;
use std::test::Fail;
use systems::{Pair, System, Wrapping};

// A sheet that has so many inputs of the word 1.
fn filled<S: System>(rt: &impl Abort, system: S, count: u64) -> OpenSheet<S> {
    let mut sheet = OpenSheet::new(7, 1, system);
    for n in 0..count {
        assert_eq!(rt; sheet.input(Word::ONE), Ok(n));
    }
    sheet
}

// That there is no room comes before the code and the cells.
fn is_full<S: System>(rt: &impl Abort, mut sheet: OpenSheet<S>) -> Result<(), Fail> {
    tells(rt, sheet.input(Word::ONE).err(), 1, 0, 0, Layer::Sheet)?;
    tells(rt, refused(&mut sheet, 1, 0, 1), 1, 0, 0, Layer::Sheet)?;
    tells(rt, refused(&mut sheet, 9, 300, 300), 1, 0, 0, Layer::Sheet)
}

fn last_cell_for_an_input<S: System>(rt: &impl Abort, system: S) -> Result<(), Fail> {
    let mut sheet = filled(rt, system, 255);
    assert_eq!(rt; sheet.input(TWO), Ok(255));
    assert_eq!(rt; sheet.read(255), Ok(TWO));
    is_full(rt, sheet)
}

fn last_cell_for_a_claim<S: System>(rt: &impl Abort, system: S) -> Result<(), Fail> {
    let mut sheet = filled(rt, system, 255);
    let ticket = sheet.enter(1, 0, 254, TWO)?;
    assert_eq!(rt; sheet.settle(ticket, TWICE_ONE), Ok(255));
    is_full(rt, sheet)
}

// The code comes before the cells. Codes are 1 to 8.
fn unknown_codes<S: System>(rt: &impl Abort, system: S) -> Result<(), Fail> {
    let mut sheet = started(rt, system, 1);
    tells(rt, refused(&mut sheet, 0, 0, 1), 2, 0, 0, Layer::Sheet)?;
    tells(rt, refused(&mut sheet, 9, 300, 300), 2, 0, 0, Layer::Sheet)?;
    tells(
        rt,
        refused(&mut sheet, 0xFFFF_FFFF, 0, 1),
        2,
        0,
        0,
        Layer::Sheet,
    )?;
    assert_eq!(rt; refused(&mut sheet, 8, 0, 1), None);
    Ok(())
}

fn cells_not_taken<S: System>(rt: &impl Abort, system: S) -> Result<(), Fail> {
    let mut sheet = started(rt, system, 1);
    tells(rt, refused(&mut sheet, 1, 2, 2), 3, 1, 0, Layer::Sheet)?;
    tells(rt, refused(&mut sheet, 1, 0, 2), 3, 2, 0, Layer::Sheet)?;
    tells(rt, refused(&mut sheet, 1, 0, 256), 3, 2, 0, Layer::Sheet)?;
    tells(rt, sheet.read(2).err(), 3, 1, 0, Layer::Sheet)?;
    tells(rt, sheet.read(256).err(), 3, 1, 0, Layer::Sheet)
}

// That a cell is not taken comes before that one is not accepted.
fn cells_struck<S: System>(rt: &impl Abort, system: S) -> Result<(), Fail> {
    let mut sheet = started(rt, system, 1);
    let ticket = sheet.enter(1, 0, 1, TWO)?;
    assert_eq!(rt; sheet.strike(ticket), Ok(2));
    tells(rt, refused(&mut sheet, 1, 2, 2), 4, 1, 0, Layer::Sheet)?;
    tells(rt, refused(&mut sheet, 1, 2, 300), 3, 2, 0, Layer::Sheet)?;
    tells(rt, sheet.read(2).err(), 4, 1, 0, Layer::Sheet)
}

fn cells_pending<S: System>(rt: &impl Abort, system: S) -> Result<(), Fail> {
    let mut sheet = started(rt, system, 1);
    let ticket = sheet.enter(1, 0, 1, TWO)?;
    let entered = refused(&mut sheet, 1, 0, 2);
    let read = sheet.read(2);
    assert_eq!(rt; sheet.settle(ticket, TWICE_ONE), Ok(2));
    tells(rt, entered, 4, 2, 0, Layer::Sheet)?;
    tells(rt, read.err(), 4, 1, 0, Layer::Sheet)
}

// The root of 2 = 3FB504F3, with a second cell that does not exist; a quotient looks at its second cell.
fn root_of_two<S: System>(rt: &impl Abort, system: S) -> Result<(), Fail> {
    let root = Word { bits: 0x3FB5_04F3 };
    let hints = Hints::from([23726566, 19268956, 26, 11863283, 0, 0]);
    let mut sheet = OpenSheet::new(7, 1, system);
    assert_eq!(rt; sheet.input(TWO), Ok(0));
    let ticket = sheet.enter(5, 0, 999, root)?;
    assert_eq!(rt; sheet.settle(ticket, hints), Ok(1));
    assert_eq!(rt; sheet.read(1), Ok(root));
    tells(rt, refused(&mut sheet, 5, 999, 0), 3, 1, 0, Layer::Sheet)?;
    tells(rt, refused(&mut sheet, 4, 0, 999), 3, 2, 0, Layer::Sheet)
}

#[test]
fn room(rt: HostRuntime) -> Result<(), Fail> {
    last_cell_for_an_input(&rt, Wrapping)?;
    last_cell_for_an_input(&rt, Pair)?;
    last_cell_for_a_claim(&rt, Wrapping)?;
    last_cell_for_a_claim(&rt, Pair)
}

#[test]
fn codes(rt: HostRuntime) -> Result<(), Fail> {
    unknown_codes(&rt, Wrapping)?;
    unknown_codes(&rt, Pair)
}

#[test]
fn operands(rt: HostRuntime) -> Result<(), Fail> {
    cells_not_taken(&rt, Wrapping)?;
    cells_not_taken(&rt, Pair)?;
    cells_struck(&rt, Wrapping)?;
    cells_struck(&rt, Pair)?;
    cells_pending(&rt, Wrapping)?;
    cells_pending(&rt, Pair)
}

#[test]
fn root(rt: HostRuntime) -> Result<(), Fail> {
    root_of_two(&rt, Wrapping)?;
    root_of_two(&rt, Pair)
}
