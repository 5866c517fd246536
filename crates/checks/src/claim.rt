// A claim, examined check by check.
ghost use Rattle.std.specs.Prelude.{◌≡◌};
ghost use Rattle.checks.specs.Examined.{word_checked, examined_direct, examined_rounded, examined, Sound};

use crate::equation::{first_equation, holds, second_equation};
use crate::flaw::{Flaw, check};
use crate::width::{check_back, check_front, check_none};
use binary32::{Operation, Word};
use hints::{Case, Cut, Setting, Written};
use systems::System;

fn check_word(claimed: Word, word: Word) -> Result<(), Flaw>
    ensures { result ≡ word_checked claimed.bits word.bits }
{
    check(claimed == word, Flaw::Word)
}

// A direct step has no hints and its own word.
fn examine_direct(word: Word, claimed: Written) -> Result<(), Flaw>
    ensures { result ≡ examined_direct word claimed }
{
    check_none(claimed.hints)?;
    check_word(claimed.word, word)
}

fn examine_rounded<S: System>(system: &S, setting: Setting, claimed: Written) -> Result<(), Flaw>
    ensures { result ≡ examined_rounded setting claimed }
{
    let Written { word, hints } = claimed;
    check_front(setting, hints)?;
    let cut = Cut::of(setting.scale, hints.lift as u32);
    check_back(cut, hints)?;
    check(
        holds(system, first_equation(setting, hints)),
        Flaw::FirstEquation,
    )?;
    check(
        holds(system, second_equation(cut, hints)),
        Flaw::SecondEquation,
    )?;
    check(
        hints.up == cut.up(hints.rest, hints.keep, hints.drop),
        Flaw::Up,
    )?;
    check_word(word, cut.word(setting.negative, hints.keep, hints.up))
}

// The first check that a claim fails, if any.
fn outcome<S: System>(
    system: &S,
    operation: Operation,
    a: Word,
    b: Word,
    claimed: Written,
) -> Result<(), Flaw>
    ensures { result ≡ examined operation a.bits b.bits claimed }
{
    match Case::of(operation, a, b) {
        Case::Direct(word) => examine_direct(word, claimed),
        Case::Rounded(setting) => examine_rounded(system, setting, claimed),
    }
}

// Whether `claimed` has the word of the operation on `a` and `b` and the hints that back it: the first check that it fails,
// if any. It fails none just where it is what the writer gives.
pub fn examine<S: System>(
    system: &S,
    operation: Operation,
    a: Word,
    b: Word,
    claimed: Written,
) -> Result<(), Flaw>
    ensures value { result ≡ examined operation a.bits b.bits claimed }
    ensures sound { Sound result operation a.bits b.bits claimed }
{
    outcome(system, operation, a, b, claimed)
}
