// The setting of a rounded step: what its hints are reckoned from.
ghost use Rattle.std.specs.Prelude.{◌≡◌, ◌≤◌, false};
ghost use Rattle.binary32.specs.Normal.{Proper, ProperStep};
ghost use Rattle.hints.specs.Cases.{case_from, case_of};
ghost use Rattle.hints.specs.Settings.{kind_of, numbers_in, setting_of, alignment_of, radicand_shift};

use binary32::{Exact, NormalForm, Operation, Step, Word};
use std::marker::Model;

#[derive(Clone, Copy, PartialEq, Eq, Debug)]
pub enum Kind {
    Sum,
    Difference,
    Product,
    Quotient,
    Root,
}

impl Kind {
    // No `From`, which would be public: nobody else asks.
    fn of(exact: Exact) -> Kind
        ensures { result ≡ kind_of exact }
    {
        match exact {
            Exact::Sum(_, _) => Kind::Sum,
            Exact::Difference(_, _) => Kind::Difference,
            Exact::Product(_, _) => Kind::Product,
            Exact::Quotient(_, _) => Kind::Quotient,
            Exact::Root(_) => Kind::Root,
        }
    }
}

// `first` and `second` are the significands of the operands, in a sum or a difference the larger
// operand's first; a root has no second. `shift` is how far up the smaller operand of a sum stands, or
// the radicand of a root. The exact result is the hint main, and what it leaves over, times 2^(`scale` − 400), but in a sum
// whose exponents differ by more than 26. One record serves all kinds: an enum is no plainer, as its cases would name the same
// numbers again, and sum and difference go one way.
#[derive(Clone, Copy, PartialEq, Eq, Debug)]
pub struct Setting {
    pub kind: Kind,
    pub negative: bool,
    pub first: u64,
    pub second: u64,
    pub shift: u32,
    pub scale: u32,
}

// Contracts see a setting as its figures, which keep the bounds of its kind of step. By a model and not by ghost fields: with those
// each definition that makes a setting would have to carry the proof.
impl Model for Setting {
    ghost use Rattle.hints.specs.Settings.{Figures};

    ghost Value = { Figures };

    ghost use Rattle.hints.specs.Views.{figures_of, inside_of, IsFit};

    ghost view = { figures_of };

    ghost inverse = { inside_of };

    ghost invariant = { IsFit };
}

// How far below the larger operand the smaller one of a sum may count as standing. One that stands further down is less than a
// quarter of the spacing even here, and decides nothing; held at 24 it could.
const GUARD_BITS: u32 = 26;

// A scale is 400 above s, and the exponent of a normal form 172 above e. So s = e1 − 26 of a sum asks for 400 − 26 − 172,
// s = e1 + e2 of a product for 400 − 2 · 172, s = e1 − e2 − 26 of a quotient for 400 − 26, and s = (e1 − t) / 2 of a
// root for 2 · 400 − 172 before it is halved.
const SUM_BIAS: u32 = 202;

const PRODUCT_BIAS: u32 = 56;

const QUOTIENT_BIAS: u32 = 374;

const ROOT_BIAS: u32 = 628;

// The shift of the smaller operand of a sum: none below the guard bits.
fn alignment(x: NormalForm, y: NormalForm) -> u32
    requires { y.exponent ≤ x.exponent }
    ensures { result ≡ alignment_of x y }
{
    GUARD_BITS - (x.exponent - y.exponent).min(GUARD_BITS)
}

// 26 or 27, so that the exponent less the shift is even.
fn radicand_shift(x: NormalForm) -> u32
    ensures { result ≡ radicand_shift x }
{
    26 + x.exponent % 2
}

// The significands of the operands, the shift and the scale.
fn figures(exact: Exact) -> (u32, u32, u32, u32)
    requires { Proper exact }
    ensures { result ≡ numbers_in (setting_of false exact) }
{
    match exact {
        Exact::Sum(x, y) | Exact::Difference(x, y) => (
            x.significand,
            y.significand,
            alignment(x, y),
            x.exponent + SUM_BIAS,
        ),
        Exact::Product(x, y) => (
            x.significand,
            y.significand,
            0,
            x.exponent + y.exponent + PRODUCT_BIAS,
        ),
        Exact::Quotient(x, y) => (
            x.significand,
            y.significand,
            0,
            x.exponent + QUOTIENT_BIAS - y.exponent,
        ),
        Exact::Root(x) => {
            let shift = radicand_shift(x);
            (
                x.significand,
                0,
                shift,
                (x.exponent + ROOT_BIAS - shift) / 2,
            )
        }
    }
}

impl Setting {
    // The setting of an exact result.
    fn of(negative: bool, exact: Exact) -> Setting
        requires { Proper exact }
        ensures { result ≡ setting_of negative exact }
    {
        let (first, second, shift, scale) = figures(exact);
        Setting {
            kind: Kind::of(exact),
            negative,
            first: u64::from(first),
            second: u64::from(second),
            shift,
            scale,
        }
    }
}

// What the hints of a step are held against: of a direct step its word alone, of a rounded one its setting.
#[derive(Clone, Copy, PartialEq, Eq, Debug)]
pub enum Case {
    Direct(Word),
    Rounded(Setting),
}

impl Case {
    // The case of a step whose exact result, if it has one, is proper.
    fn of_step(step: Step) -> Case
        requires { ProperStep step }
        ensures { result ≡ case_from step }
    {
        match step {
            Step::Direct(word) => Case::Direct(word),
            Step::Rounded { negative, exact } => Case::Rounded(Setting::of(negative, exact)),
        }
    }

    // The case of an operation on two words.
    #[tactic(auto, using(binary32::proofs::Steps::step_proper))]
    pub fn of(operation: Operation, a: Word, b: Word) -> Case
        ensures { result ≡ case_of operation a.bits b.bits }
    {
        Case::of_step(operation.apply(a, b))
    }
}
