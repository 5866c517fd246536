// The writer: a step's word with the hints that back it.
ghost use Rattle.std.specs.Prelude.{◌≡◌, ◌+◌, ◌-◌, ◌*◌, ◌^◌, ◌<◌, ◌≤◌, cond};
ghost use Rattle.binary32.specs.Operations.{operation_of};
ghost use Rattle.hints.specs.Cases.{case_of};
ghost use Rattle.hints.specs.Hints.{listed};
ghost use Rattle.hints.specs.Scheme.{principal_of};
ghost use Rattle.hints.specs.Writer.{rounded_with, written_case, written_step, written, Right, RightReply};
ghost use Rattle.hints.specs.Worked.{Worked};
ghost use Rattle.rounding.specs.Laws.{Rounding};

use crate::leaves::{cut, lifted, moved_up, quotient};
use crate::place::Cut;
use crate::radicand::Radicand;
use crate::refusal::Refusal;
use crate::setting::{Case, Kind, Setting};
use binary32::{Operation, Word};

// The six hints of a step, in their order.
#[derive(Clone, Copy, PartialEq, Eq, Debug)]
pub struct Hints {
    pub main: u64,
    pub rest: u64,
    pub lift: u64,
    pub keep: u64,
    pub drop: u64,
    pub up: u64,
}

// The word of a step and its hints.
#[derive(Clone, Copy, PartialEq, Eq, Debug)]
pub struct Written {
    pub word: Word,
    pub hints: Hints,
}

impl Hints {
    // Those of a direct step.
    pub const NONE: Hints = Hints {
        main: 0,
        rest: 0,
        lift: 0,
        keep: 0,
        drop: 0,
        up: 0,
    };
}

// The hints from a list in their order.
impl From<[u64; 6]> for Hints {
    ghost from_gives = { λ list hints. listed hints ≡ list };

    fn from(list: [u64; 6]) -> Hints {
        let [main, rest, lift, keep, drop, up] = list;
        Hints {
            main,
            rest,
            lift,
            keep,
            drop,
            up,
        }
    }
}

// The list of the hints in their order.
impl From<Hints> for [u64; 6] {
    ghost from_gives = { λ hints list. list ≡ listed hints };

    fn from(hints: Hints) -> [u64; 6] {
        [
            hints.main, hints.rest, hints.lift, hints.keep, hints.drop, hints.up,
        ]
    }
}

// The main of a sum, or else of a difference. The two are one way through the code, as in the checks, since which it is cannot be
// foreseen: by two ways both took longer.
fn sum_main(is_sum: bool, setting: Setting) -> u64
    requires { setting.shift ≤ 26 }
    ensures { result ≡ cond is_sum (setting.first * 2 ^ 26 + setting.second * 2 ^ setting.shift) (setting.first * 2 ^ 26 - setting.second * 2 ^ setting.shift) }
{
    if is_sum {
        moved_up(setting.first, 26) + moved_up(setting.second, setting.shift)
    } else {
        moved_up(setting.first, 26).saturating_sub(moved_up(setting.second, setting.shift))
    }
}

// The hints main and rest.
fn principal(setting: Setting) -> (u64, u64)
    ensures { result ≡ principal_of setting }
{
    let is_sum = matches!(setting.kind, Kind::Sum);
    match setting.kind {
        Kind::Sum | Kind::Difference => (sum_main(is_sum, setting), 0),
        Kind::Product => (setting.first * setting.second, 0),
        Kind::Quotient => quotient(moved_up(setting.first, 26), setting.second),
        Kind::Root => {
            let value = moved_up(setting.first, setting.shift);
            Radicand { value }.root()
        }
    }
}

// The word and the hints of a rounded step.
#[tactic(auto, using(crate::proofs::Principals::main_fits))]
fn rounded(setting: Setting) -> Written
    ensures { result ≡ rounded_with setting }
{
    let Setting {
        negative,
        scale,
        ..
    } = setting;
    let (main, rest) = principal(setting);
    let (lift, number) = lifted(main);
    let place = Cut::of(scale, lift);
    let (keep, drop) = cut(number, place.place());
    let up = place.up(rest, keep, drop);
    Written {
        word: place.word(negative, keep, up),
        hints: Hints {
            main,
            rest,
            lift: u64::from(lift),
            keep,
            drop,
            up,
        },
    }
}

// The word and the hints of a case: six zeros where it is direct.
fn written_case(case: Case) -> Written
    ensures { result ≡ written_case case }
{
    match case {
        Case::Direct(word) => Written {
            word,
            hints: Hints::NONE,
        },
        Case::Rounded(setting) => rounded(setting),
    }
}

// The same of a case that is known to be the step's. Apart from `write_step`: as one function, with the lemmas named, the check
// leaves the clause `right` open.
fn written_for(operation: Operation, a: Word, b: Word, case: Case) -> Written
    requires { case ≡ case_of operation a.bits b.bits }
    ensures value { result ≡ written_step operation a.bits b.bits }
    ensures right { Right operation a.bits b.bits result }
    ensures rounding { Rounding }
    ensures worked { Worked }
{
    written_case(case)
}

// The word of an operation on two words, with its hints: six zeros where the step is direct. It is right:
// its hints back it, nothing else backs the step, and the word is the correctly rounded one. The last two
// clauses speak of the definitions: the laws of the nearest word, and steps worked out by hand. Here, in the step and in the checks
// an operation stands beside its operands: one type for them is no plainer, since codes, cells and operands come apart at most calls,
// and those that have a step whole have it as a line of text.
pub fn write_step(operation: Operation, a: Word, b: Word) -> Written
    ensures value { result ≡ written_step operation a.bits b.bits }
    ensures right { Right operation a.bits b.bits result }
    ensures rounding { Rounding }
    ensures worked { Worked }
{
    written_for(operation, a, b, Case::of(operation, a, b))
}

// The same by the operation's code, which may be none.
pub fn write_word(code: u32, a: Word, b: Word) -> Result<Written, Refusal>
    ensures value { result ≡ written code a.bits b.bits }
    ensures right { RightReply (operation_of code) a.bits b.bits result }
{
    let operation = Operation::try_from(code)?;
    Ok(write_step(operation, a, b))
}
