use crate::equation::Equation;
use crate::pair::Pair;
use crate::system::System;
use crate::wrapping::Wrapping;

// From 0: for each word, times the weight, plus the word.
fn fold<S: System>(system: &S, weight: u64, words: &[u32]) -> u64 {
    let factor = system.take_in(weight);
    let mut total = system.take_in(0);
    for word in words {
        total = system.sum(
            system.product(total, factor),
            system.take_in(u64::from(*word)),
        );
    }
    system.read_back(total)
}

fn kept<S: System>(system: &S, n: u64) -> u64 {
    system.read_back(system.take_in(n))
}

fn alike<S: System>(system: &S, a: u64, b: u64) -> bool {
    system.same(system.take_in(a), system.take_in(b))
}

#[test]
fn folds(rt: HostRuntime) {
    let words = [0x3F800000, 0x3F800000, 0x40000000];
    assert_eq!(rt; fold(&Wrapping, 4294967296, &words), 0x3F80000040000000);
    assert_eq!(rt; fold(&Pair, 4294967296, &words), 0x33088889D6EEEEEF);
}

#[test]
fn corners(rt: HostRuntime) {
    assert_eq!(rt; kept(&Wrapping, 0), 0);
    assert_eq!(rt; kept(&Wrapping, 0xFFFFFFFFFFFFFFFF), 0xFFFFFFFFFFFFFFFF);
    assert_eq!(rt; kept(&Pair, 0), 0);
    assert_eq!(rt; kept(&Pair, 0x3C00000007FFFFFE), 0x3C00000007FFFFFE);
    assert_eq!(rt; kept(&Pair, 0x3C00000007FFFFFF), 0);
    // Four times the modulus is F00000001FFFFFFC.
    assert_eq!(rt; kept(&Pair, 0xFFFFFFFFFFFFFFFF), 0x0FFFFFFFE0000003);
}

#[test]
fn sameness(rt: HostRuntime) {
    assert!(rt; alike(&Pair, 5, 0x3C00000008000004));
    assert!(rt; !alike(&Pair, 5, 6));
    // One of the two remainders is the same.
    assert!(rt; !alike(&Pair, 0, 2147483647));
    assert!(rt; !alike(&Pair, 0, 2013265921));
    assert!(rt; !alike(&Wrapping, 5, 0x3C00000008000004));
}

#[test]
fn equations(rt: HostRuntime) {
    let right = Equation {
        first: 2,
        second: 3,
        third: 4,
        fourth: 5,
        fifth: 4,
        sixth: 6,
        seventh: 2,
    };
    assert!(rt; right.holds(&Wrapping));
    assert!(rt; right.holds(&Pair));
    let wrong = Equation {
        seventh: 3,
        ..right
    };
    assert!(rt; !wrong.holds(&Pair));
    // 2^64 is 0 to the one system and not to the other.
    let full = Equation {
        first: 4294967296,
        second: 4294967296,
        ..Equation::ZERO
    };
    assert!(rt; full.holds(&Wrapping));
    assert!(rt; !full.holds(&Pair));
}
