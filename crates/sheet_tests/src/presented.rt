// Tickets that are presented: to the sheet that gave them, to another one, and a second time.
use crate::figures::{TWICE_ONE, TWO, settle_twice_one, started, tells};
use binary32::Word;
use checks::Flaw;
use hints::{Hint, Hints, Layer};
use sheet::{OpenSheet, Refusal, Stub, Ticket};
use std::process::Abort;
use std::test::Fail;
use systems::{Pair, System, Wrapping};

// Neither settle nor strike takes a ticket with these numbers.
fn is_bad<S: System>(
    rt: &impl Abort,
    sheet: &mut OpenSheet<S>,
    serial: u32,
    cell: u64,
) -> Result<(), Fail> {
    let settled = sheet.settle(Ticket::new(serial, cell), TWICE_ONE);
    let struck = sheet.strike(Ticket::new(serial, cell));
    tells(rt, settled.err(), 5, 0, 0, Layer::Sheet)?;
    tells(rt, struck.err(), 5, 0, 0, Layer::Sheet)
}

fn spent_by_settling<S: System>(rt: &impl Abort, system: S) -> Result<(), Fail> {
    let mut sheet = started(rt, system, 1);
    assert_eq!(rt; settle_twice_one(&mut sheet)?, 2);
    is_bad(rt, &mut sheet, 7, 2)?;
    assert_eq!(rt; sheet.read(2), Ok(TWO));
    Ok(())
}

// Main is 0, so that no lift takes it up to bit 50.
fn spent_by_a_refusal<S: System>(rt: &impl Abort, system: S) -> Result<(), Fail> {
    let mut sheet = started(rt, system, 1);
    let ticket = sheet.enter(1, 0, 1, TWO)?;
    let reply = sheet.settle(ticket, Hints::NONE);
    assert_eq!(rt;
        reply,
        Err(Refusal::Flawed {
            cell: 2,
            flaw: Flaw::Width(Hint::Lift)
        })
    );
    is_bad(rt, &mut sheet, 7, 2)
}

fn spent_by_striking<S: System>(rt: &impl Abort, system: S) -> Result<(), Fail> {
    let mut sheet = started(rt, system, 1);
    let ticket = sheet.enter(1, 0, 1, TWO)?;
    assert_eq!(rt; sheet.strike(ticket), Ok(2));
    is_bad(rt, &mut sheet, 7, 2)
}

fn presented_again<S: System>(rt: &impl Abort, system: S) -> Result<(), Fail> {
    spent_by_settling(rt, system)?;
    spent_by_a_refusal(rt, system)?;
    spent_by_striking(rt, system)
}

// A ticket of another serial, of an input, of a cell that is not taken and of a number that no cell has; the claim stays
// pending, and a ticket made of its two numbers settles it.
fn of_another_cell<S: System>(rt: &impl Abort, system: S) -> Result<(), Fail> {
    let mut sheet = started(rt, system, 1);
    let counter = OpenSheet::new(9, 1, system).close();
    let ticket = sheet.enter(1, 0, 1, TWO)?;
    let stub = counter.hand_in(ticket);
    assert_eq!(rt; stub, Stub { serial: 7, cell: 2 });
    is_bad(rt, &mut sheet, 8, 2)?;
    is_bad(rt, &mut sheet, 7, 1)?;
    is_bad(rt, &mut sheet, 7, 3)?;
    is_bad(rt, &mut sheet, 7, 0xFFFF_FFFF_FFFF_FFFF)?;
    let again = Ticket::from(stub);
    assert_eq!(rt; sheet.settle(again, TWICE_ONE), Ok(2));
    assert_eq!(rt; sheet.read(2), Ok(TWO));
    Ok(())
}

// Closing strikes a pending claim; its ticket can still be handed in, as can any other.
fn handed_in<S: System>(rt: &impl Abort, system: S) -> Result<(), Fail> {
    let mut sheet = started(rt, system, 1);
    let ticket = sheet.enter(1, 0, 1, TWO)?;
    let sheet = sheet.close();
    let stub = sheet.hand_in(ticket);
    assert_eq!(rt; stub, Stub { serial: 7, cell: 2 });
    tells(rt, sheet.read(2).err(), 4, 1, 0, Layer::Sheet)?;
    let other = sheet.hand_in(Ticket::new(8, 300));
    assert_eq!(rt;
        other,
        Stub {
            serial: 8,
            cell: 300,
        }
    );
    assert_eq!(rt; sheet.read(1), Ok(Word::ONE));
    tells(rt, sheet.read(3).err(), 3, 1, 0, Layer::Sheet)
}

#[test]
fn again(rt: HostRuntime) -> Result<(), Fail> {
    presented_again(&rt, Wrapping)?;
    presented_again(&rt, Pair)
}

#[test]
fn elsewhere(rt: HostRuntime) -> Result<(), Fail> {
    of_another_cell(&rt, Wrapping)?;
    of_another_cell(&rt, Pair)
}

#[test]
fn closing(rt: HostRuntime) -> Result<(), Fail> {
    handed_in(&rt, Wrapping)?;
    handed_in(&rt, Pair)
}
