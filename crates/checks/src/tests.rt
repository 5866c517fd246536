use crate::claim::examine;
use crate::flaw::Flaw;
use binary32::{Operation, Word};
use hints::{Hint, Hints, Written};
use std::process::Abort;
use systems::{Pair, System, Wrapping};

const ONE: Word = Word { bits: 0x3F80_0000 };

const TWO: Word = Word { bits: 0x4000_0000 };

// The hints of 1 + 1 = 2.
const TWICE_ONE: Hints = Hints {
    main: 0x4_0000_0000_0000,
    rest: 0,
    lift: 0,
    keep: 0x80_0000,
    drop: 0,
    up: 0,
};

// What is found in a claim of the sum 1 + 1.
fn found<S: System>(system: &S, word: u32, hints: Hints) -> Result<(), Flaw> {
    let claimed = Written {
        word: Word { bits: word },
        hints,
    };
    examine(system, Operation::Add, ONE, ONE, claimed)
}

// One figure changed at a time.
fn refuses<S: System>(rt: &impl Abort, system: &S) {
    let right = TWICE_ONE;
    assert_eq!(rt; found(system, 0x4000_0000, right), Ok(()));
    let main = Hints {
        main: 0x4_0000_0000_0001,
        ..right
    };
    assert_eq!(rt; found(system, 0x4000_0000, main), Err(Flaw::FirstEquation));
    let drop = Hints { drop: 1, ..right };
    assert_eq!(rt; found(system, 0x4000_0000, drop), Err(Flaw::SecondEquation));
    let up = Hints { up: 1, ..right };
    assert_eq!(rt; found(system, 0x4000_0000, up), Err(Flaw::Up));
    assert_eq!(rt; found(system, 0x4000_0001, right), Err(Flaw::Word));
    let lift = Hints { lift: 1, ..right };
    assert_eq!(rt;
        found(system, 0x4000_0000, lift),
        Err(Flaw::Width(Hint::Lift))
    );
}

#[test]
fn numbers(rt: HostRuntime) {
    assert_eq!(rt; Flaw::Width(Hint::Lift).number(), 6);
    assert_eq!(rt; Flaw::Word.number(), 10);
}

#[test]
fn sums(rt: HostRuntime) {
    refuses(&rt, &Wrapping);
    refuses(&rt, &Pair);
}

#[test]
fn quotient(rt: HostRuntime) {
    let hints = Hints {
        main: 44739242,
        rest: 8388608,
        lift: 25,
        keep: 11184810,
        drop: 0x400_0000,
        up: 1,
    };
    let three = Word { bits: 0x4040_0000 };
    let third = Word { bits: 0x3EAA_AAAB };
    let claimed = Written { word: third, hints };
    assert_eq!(rt;
        examine(&Pair, Operation::Divide, ONE, three, claimed),
        Ok(())
    );
    assert_eq!(rt;
        examine(&Wrapping, Operation::Divide, ONE, three, claimed),
        Ok(())
    );
}

#[test]
fn root(rt: HostRuntime) {
    let hints = Hints {
        main: 23726566,
        rest: 19268956,
        lift: 26,
        keep: 11863283,
        drop: 0,
        up: 0,
    };
    let word = Word { bits: 0x3FB5_04F3 };
    let claimed = Written { word, hints };
    assert_eq!(rt;
        examine(&Pair, Operation::SquareRoot, TWO, ONE, claimed),
        Ok(())
    );
    assert_eq!(rt;
        examine(&Wrapping, Operation::SquareRoot, TWO, ONE, claimed),
        Ok(())
    );
}

#[test]
fn direct(rt: HostRuntime) {
    let zero = Word::ZERO;
    let right = Written {
        word: zero,
        hints: Hints::NONE,
    };
    let hints = Hints {
        keep: 1,
        ..Hints::NONE
    };
    let wrong = Written { hints, ..right };
    assert_eq!(rt;
        examine(&Pair, Operation::Multiply, zero, zero, right),
        Ok(())
    );
    assert_eq!(rt;
        examine(&Pair, Operation::Multiply, zero, zero, wrong),
        Err(Flaw::Width(Hint::Keep))
    );
}
