// The step that an operation takes on two words: direct, with its word, or rounded, with its exact result.
ghost use Rattle.std.specs.Prelude.{◌≡◌};
ghost use Rattle.binary32.specs.Sizes.{rank_of};
ghost use Rattle.binary32.specs.Words.{class_of};
ghost use Rattle.binary32.specs.Steps.{sum_step, rounded_sum, product_of, quotient_of, root_of, order_of, answer_of, step_of};

use crate::operation::Operation;
use crate::word::{Class, NormalForm, Word};
use std::cmp::Ordering;

// The absolute value of a result that has to be rounded, by the normal forms of the operands. In a sum
// and in a difference the operand of the larger magnitude comes first, of equal ones the first operand.
#[derive(Clone, Copy, PartialEq, Eq, Debug)]
pub enum Exact {
    Sum(NormalForm, NormalForm),
    Difference(NormalForm, NormalForm),
    Product(NormalForm, NormalForm),
    Quotient(NormalForm, NormalForm),
    Root(NormalForm),
}

#[derive(Clone, Copy, PartialEq, Eq, Debug)]
pub enum Step {
    Direct(Word),
    Rounded { negative: bool, exact: Exact },
}

// The rounded sum of two words, of which the first has the larger magnitude.
fn rounded_sum(a: Word, b: Word, x: NormalForm, y: NormalForm) -> Step
    ensures { result ≡ rounded_sum a.bits b.bits x y }
{
    let negative = a.is_negative();
    let exact = if negative == b.is_negative() {
        Exact::Sum(x, y)
    } else {
        Exact::Difference(x, y)
    };
    Step::Rounded { negative, exact }
}

// A sum. A NaN, infinities and zeros are direct, and so is a sum that cancels.
fn sum(a: Word, b: Word) -> Step
    ensures { result ≡ sum_step a.bits b.bits }
{
    let opposed = a.is_negative() != b.is_negative();
    match (a.class(), b.class()) {
        (Class::Nan, _) | (_, Class::Nan) => Step::Direct(Word::NAN),
        (Class::Infinity, Class::Infinity) => Step::Direct(if opposed { Word::NAN } else { a }),
        (Class::Infinity, _) => Step::Direct(a),
        (_, Class::Infinity) => Step::Direct(b),
        (Class::Zero, Class::Zero) => Step::Direct(if opposed { Word::ZERO } else { a }),
        (Class::Zero, _) => Step::Direct(b),
        (_, Class::Zero) => Step::Direct(a),
        (Class::Finite(x), Class::Finite(y)) => {
            let m = a.magnitude();
            let n = b.magnitude();
            if m == n && opposed {
                Step::Direct(Word::ZERO)
            } else if m < n {
                rounded_sum(b, a, y, x)
            } else {
                rounded_sum(a, b, x, y)
            }
        }
    }
}

fn product(a: Word, b: Word) -> Step
    ensures { result ≡ product_of a.bits b.bits (class_of a.bits) (class_of b.bits) }
{
    let negative = a.is_negative() != b.is_negative();
    match (a.class(), b.class()) {
        (Class::Nan, _) | (_, Class::Nan) => Step::Direct(Word::NAN),
        (Class::Zero, Class::Infinity) | (Class::Infinity, Class::Zero) => Step::Direct(Word::NAN),
        (Class::Infinity, _) | (_, Class::Infinity) => Step::Direct(Word::compose(
            negative,
            0x7f80_0000,
        )),
        (Class::Zero, _) | (_, Class::Zero) => Step::Direct(Word::compose(negative, 0)),
        (Class::Finite(x), Class::Finite(y)) => Step::Rounded {
            negative,
            exact: Exact::Product(x, y),
        },
    }
}

fn quotient(a: Word, b: Word) -> Step
    ensures { result ≡ quotient_of a.bits b.bits (class_of a.bits) (class_of b.bits) }
{
    let negative = a.is_negative() != b.is_negative();
    match (a.class(), b.class()) {
        (Class::Nan, _) | (_, Class::Nan) => Step::Direct(Word::NAN),
        (Class::Zero, Class::Zero) | (Class::Infinity, Class::Infinity) => Step::Direct(Word::NAN),
        (Class::Infinity, _) | (_, Class::Zero) => Step::Direct(Word::compose(
            negative,
            0x7f80_0000,
        )),
        (Class::Zero, _) | (_, Class::Infinity) => Step::Direct(Word::compose(negative, 0)),
        (Class::Finite(x), Class::Finite(y)) => Step::Rounded {
            negative,
            exact: Exact::Quotient(x, y),
        },
    }
}

fn root(a: Word) -> Step
    ensures { result ≡ root_of a.bits (class_of a.bits) }
{
    match a.class() {
        Class::Nan => Step::Direct(Word::NAN),
        Class::Zero => Step::Direct(a),
        _ if a.is_negative() => Step::Direct(Word::NAN),
        Class::Infinity => Step::Direct(Word::INFINITY),
        Class::Finite(x) => Step::Rounded {
            negative: false,
            exact: Exact::Root(x),
        },
    }
}

// A number that rises with the value of a word that is no NaN. The two zeros share one.
fn rank(w: Word) -> u32
    ensures { result ≡ rank_of w.bits }
{
    if w.is_negative() {
        0x8000_0000 - w.magnitude()
    } else {
        0x8000_0000 + w.magnitude()
    }
}

// How two words stand by value: a NaN in no order, and the two zeros as equals. It is no `PartialOrd`, which would have to agree
// with `==`, and that goes by bits.
fn order(a: Word, b: Word) -> Option<Ordering>
    ensures { result ≡ order_of a.bits b.bits }
{
    match (a.class(), b.class()) {
        (Class::Nan, _) | (_, Class::Nan) => None,
        _ => Some(rank(a).cmp(&rank(b))),
    }
}

// The answer of a comparison is the word 1 for yes and 0 for no.
fn answer(holds: bool) -> Step
    ensures { result ≡ answer_of holds }
{
    Step::Direct(if holds { Word::ONE } else { Word::ZERO })
}

impl Operation {
    // The step on two words. A root takes only the first.
    #[tactic(auto, using(crate::proofs::Orders::cmp_eq, crate::proofs::Orders::cmp_lt, crate::proofs::Orders::cmp_le))]
    pub fn apply(self, a: Word, b: Word) -> Step
        ensures { result ≡ step_of self a.bits b.bits }
    {
        // A difference is a sum with the second sign turned. One call serves both, so that the compiler can lay it out in place.
        let second = match self {
            Operation::Subtract => b.turned(),
            _ => b,
        };
        match self {
            Operation::Add | Operation::Subtract => sum(a, second),
            Operation::Multiply => product(a, b),
            Operation::Divide => quotient(a, b),
            Operation::SquareRoot => root(a),
            Operation::Equal => answer(order(a, b).is_some_and(Ordering::is_eq)),
            Operation::Less => answer(order(a, b).is_some_and(Ordering::is_lt)),
            Operation::AtMost => answer(order(a, b).is_some_and(Ordering::is_le)),
        }
    }
}
