// The two equations of a rounded step.
ghost use Rattle.std.specs.Prelude.{◌≡◌, ◌≤◌, if◌then◌else◌};
ghost use Rattle.systems.specs.Equations.{balanced};
ghost use Rattle.checks.specs.Equations.{first_equation, second_equation, Narrow};

use hints::{Cut, Hints, Kind, Setting};
use systems::{Equation, System};

// 2^26: a sum keeps 26 bits below the larger operand, and a dividend is moved up by as many.
const GUARD: u64 = 0x400_0000;

// `x` where `first` is set, else `y`. A sum and a difference then go one way: by two ways a checked sum took 1.5 times as long as the
// independent implementation, by one 1.2 times.
fn either(first: bool, x: u64, y: u64) -> u64
    ensures { result ≡ (if first then x else y) }
{
    if first { x } else { y }
}

// The first equation ties main and rest to the significands of the operands.
pub(crate) fn first_equation(setting: Setting, hints: Hints) -> Equation
    ensures { result ≡ first_equation setting.kind setting.first setting.second setting.shift hints.main hints.rest }
{
    let Setting {
        kind,
        first,
        second,
        shift,
        ..
    } = setting;
    let Hints { main, rest, .. } = hints;
    // A pattern is faster here than `==`, which borrows the kind: the compiler then reads it together with its neighbours.
    let sum = matches!(kind, Kind::Sum);
    match kind {
        // One way for both, since which it is cannot be foreseen: in a difference the sides are exchanged.
        Kind::Sum | Kind::Difference => Equation {
            first: either(sum, first, main),
            second: either(sum, GUARD, 1),
            third: second,
            fourth: 1 << shift,
            fifth: either(sum, main, first),
            sixth: either(sum, 1, GUARD),
            seventh: 0,
        },
        Kind::Product => Equation {
            first,
            second,
            fifth: main,
            sixth: 1,
            ..Equation::ZERO
        },
        Kind::Quotient => Equation {
            first,
            second: GUARD,
            fifth: main,
            sixth: second,
            seventh: rest,
            ..Equation::ZERO
        },
        Kind::Root => Equation {
            first,
            second: 1 << shift,
            fifth: main,
            sixth: main,
            seventh: rest,
            ..Equation::ZERO
        },
    }
}

// The second equation cuts main, moved up by its lift, into keep and drop.
pub(crate) fn second_equation(cut: Cut, hints: Hints) -> Equation
    requires { hints.lift ≤ 50 }
    ensures { result ≡ second_equation cut.k hints }
{
    Equation {
        first: hints.main,
        second: 1 << hints.lift as u32,
        fifth: hints.keep,
        sixth: 1 << cut.place(),
        seventh: hints.drop,
        ..Equation::ZERO
    }
}

// Whether an equation holds, as the system reckons it. Its sides are small enough for every system.
pub(crate) fn holds<S: System>(system: &S, equation: Equation) -> bool
    requires { Narrow equation }
    ensures { result ≡ balanced equation }
{
    equation.holds(system)
}
