// Closing numbers, worked out by hand.
use crate::figures::{TWO, settle_twice_one, started};
use sheet::OpenSheet;
use std::process::Abort;
use std::test::Fail;
use systems::{Pair, System, Wrapping};

// Of 1, 1 and their sum.
fn number_of_three<S: System>(rt: &impl Abort, system: S, weight: u64) -> Result<u64, Fail> {
    let mut sheet = started(rt, system, weight);
    assert_eq!(rt; settle_twice_one(&mut sheet)?, 2);
    Ok(sheet.close().closing_number())
}

// The same with a struck claim before the sum and a pending one after it, which do not count.
fn number_among_others<S: System>(rt: &impl Abort, system: S, weight: u64) -> Result<u64, Fail> {
    let mut sheet = started(rt, system, weight);
    let ticket = sheet.enter(1, 0, 1, TWO)?;
    assert_eq!(rt; sheet.strike(ticket), Ok(2));
    assert_eq!(rt; settle_twice_one(&mut sheet)?, 3);
    let ticket = sheet.enter(1, 0, 1, TWO)?;
    let sheet = sheet.close();
    let _ = sheet.hand_in(ticket);
    Ok(sheet.closing_number())
}

// With the weight 2^32 the three words stand side by side: 3F800000 3F800000 40000000, of which 2^64 leaves the last two. With
// the weight 1 they are added up.
#[test]
fn of_three_words(rt: HostRuntime) -> Result<(), Fail> {
    assert_eq!(rt;
        number_of_three(&rt, Wrapping, 1 << 32)?,
        0x3F80_0000_4000_0000
    );
    assert_eq!(rt; number_of_three(&rt, Pair, 1 << 32)?, 0x3308_8889_D6EE_EEEF);
    assert_eq!(rt; number_of_three(&rt, Wrapping, 1)?, 0xBF00_0000);
    assert_eq!(rt; number_of_three(&rt, Pair, 1)?, 0xBF00_0000);
    Ok(())
}

#[test]
fn struck_cells_do_not_count(rt: HostRuntime) -> Result<(), Fail> {
    assert_eq!(rt;
        number_among_others(&rt, Wrapping, 1 << 32)?,
        0x3F80_0000_4000_0000
    );
    assert_eq!(rt;
        number_among_others(&rt, Pair, 1 << 32)?,
        0x3308_8889_D6EE_EEEF
    );
    Ok(())
}

#[test]
fn of_no_word(rt: HostRuntime) {
    assert_eq!(rt; OpenSheet::new(7, 9, Wrapping).close().closing_number(), 0);
    assert_eq!(rt; OpenSheet::new(7, 9, Pair).close().closing_number(), 0);
}
