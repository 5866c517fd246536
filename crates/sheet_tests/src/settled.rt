// The step 1 + 1 = 2, and one figure of it changed at a time.
use crate::figures::{TWICE_ONE, TWO, started, tells};
use binary32::Word;
use hints::{Hints, Layer};
use sheet::{Operand, Refusal};
use std::process::Abort;
use std::test::Fail;
use systems::{Pair, System, Wrapping};

fn accepts<S: System>(rt: &impl Abort, system: S) -> Result<(), Fail> {
    let mut sheet = started(rt, system, 1);
    let ticket = sheet.enter(1, 0, 1, TWO)?;
    assert_eq!(rt; sheet.settle(ticket, TWICE_ONE), Ok(2));
    assert_eq!(rt; sheet.read(2), Ok(TWO));
    assert_eq!(rt; sheet.close().read(2), Ok(TWO));
    Ok(())
}

// A claim of 1 + 1 is refused by a number, and its cell is struck. Of a hint its number is told too.
fn refuses<S: System>(
    rt: &impl Abort,
    system: S,
    word: Word,
    hints: Hints,
    number: u32,
    hint: u32,
    layer: Layer,
) -> Result<(), Fail> {
    let mut sheet = started(rt, system, 1);
    let ticket = sheet.enter(1, 0, 1, word)?;
    let reply = sheet.settle(ticket, hints);
    tells(rt, reply.err(), number, 2, hint, layer)?;
    assert_eq!(rt;
        sheet.read(2),
        Err(Refusal::NotAccepted {
            operand: Operand::First
        })
    );
    assert_eq!(rt;
        sheet.close().read(2),
        Err(Refusal::NotAccepted {
            operand: Operand::First
        })
    );
    Ok(())
}

fn refuses_each<S: System>(rt: &impl Abort, system: S) -> Result<(), Fail> {
    let right = TWICE_ONE;
    let main = Hints {
        main: 0x4_0000_0000_0001,
        ..right
    };
    let lift = Hints { lift: 1, ..right };
    let drop = Hints { drop: 1, ..right };
    let up = Hints { up: 1, ..right };
    let word = Word { bits: 0x4000_0001 };
    refuses(rt, system, TWO, lift, 6, 3, Layer::Hints)?;
    refuses(rt, system, TWO, main, 7, 0, Layer::Equations)?;
    refuses(rt, system, TWO, drop, 8, 0, Layer::Equations)?;
    refuses(rt, system, TWO, up, 9, 0, Layer::Equations)?;
    refuses(rt, system, word, right, 10, 0, Layer::Word)
}

#[test]
fn passes(rt: HostRuntime) -> Result<(), Fail> {
    accepts(&rt, Wrapping)?;
    accepts(&rt, Pair)
}

#[test]
fn fails(rt: HostRuntime) -> Result<(), Fail> {
    refuses_each(&rt, Wrapping)?;
    refuses_each(&rt, Pair)
}
