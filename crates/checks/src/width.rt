// The widths of the hints.
ghost use Rattle.std.specs.Prelude.{◌≡◌, ◌^◌, ◌<◌, ◌≤◌, Ok};
ghost use Rattle.hints.specs.Backs.{rest_limit};
ghost use Rattle.hints.specs.Scheme.{main_width};
ghost use Rattle.checks.specs.Examined.{check_widths};
ghost use Rattle.checks.specs.Widths.{lift_fits, front_outside, back_outside, some_hint};

use crate::flaw::{Flaw, check};
use hints::{Cut, Hint, Hints, Kind, Setting};

// How many bits main has at most.
fn main_width(kind: Kind) -> u32
    ensures value { result ≡ main_width kind }
    ensures bound { result ≤ 51 }
{
    match kind {
        Kind::Sum | Kind::Difference => 51,
        Kind::Product => 48,
        Kind::Quotient => 27,
        Kind::Root => 26,
    }
}

// What rest is below: nothing is left over but by a quotient or a root.
fn rest_limit(kind: Kind, second: u64, main: u64) -> u64
    requires { main < 2 ^ 63 }
    ensures { result ≡ rest_limit kind second main }
{
    match kind {
        Kind::Sum | Kind::Difference | Kind::Product => 1,
        Kind::Quotient => second,
        Kind::Root => 2 * main + 1,
    }
}

// Whether moving main up by `lift` bits takes its highest bit to bit 50.
fn lift_fits(lift: u64, main: u64) -> bool
    ensures { result ≡ lift_fits lift main }
{
    if lift > 50 {
        return false;
    }
    let free = 50 - lift as u32;
    1 << free <= main && main < 1 << (free + 1)
}

// Whether main, rest and lift are within their widths.
pub(crate) fn check_front(setting: Setting, hints: Hints) -> Result<(), Flaw>
    ensures { result ≡ check_widths (front_outside setting.kind setting.second hints) (Ok tt) }
{
    let Setting { kind, second, .. } = setting;
    let Hints {
        main,
        rest,
        lift,
        ..
    } = hints;
    check(main < 1 << main_width(kind), Flaw::Width(Hint::Main))?;
    check(
        rest < rest_limit(kind, second, main),
        Flaw::Width(Hint::Rest),
    )?;
    check(lift_fits(lift, main), Flaw::Width(Hint::Lift))
}

// Whether keep, drop and up are within their widths. Nothing is left to keep above bit 51.
pub(crate) fn check_back(cut: Cut, hints: Hints) -> Result<(), Flaw>
    ensures { result ≡ check_widths (back_outside cut.k hints) (Ok tt) }
{
    let k = cut.place();
    let Hints { keep, drop, up, .. } = hints;
    check(keep < 1 << 51u32.saturating_sub(k), Flaw::Width(Hint::Keep))?;
    check(drop < 1 << k, Flaw::Width(Hint::Drop))?;
    check(up <= 1, Flaw::Width(Hint::Up))
}

// Whether every hint is 0. Hint by hint: a search is no plainer, as its list of hints and values would be made for this alone.
pub(crate) fn check_none(hints: Hints) -> Result<(), Flaw>
    ensures { result ≡ check_widths (some_hint hints) (Ok tt) }
{
    check(hints.main == 0, Flaw::Width(Hint::Main))?;
    check(hints.rest == 0, Flaw::Width(Hint::Rest))?;
    check(hints.lift == 0, Flaw::Width(Hint::Lift))?;
    check(hints.keep == 0, Flaw::Width(Hint::Keep))?;
    check(hints.drop == 0, Flaw::Width(Hint::Drop))?;
    check(hints.up == 0, Flaw::Width(Hint::Up))
}
