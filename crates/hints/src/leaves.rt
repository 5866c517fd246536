// The small steps of the writer: a number moved up, a quotient and a cut.
ghost use Rattle.std.specs.Prelude.{◌≡◌, ◌+◌, ◌-◌, ◌*◌, ◌/◌, ◌%◌, ◌^◌, ◌<◌, ◌≤◌};
ghost use Rattle.hints.specs.Scheme.{lift_of};

// A significand moved up by `by` bits.
#[tactic(auto, using(crate::proofs::Principals::moved_below, std::proofs::lemmas::Nat::shl_whole))]
pub(crate) fn moved_up(significand: u64, by: u32) -> u64
    requires fits { significand < 2 ^ 24 }
    requires bound { by ≤ 27 }
    ensures value { result ≡ significand * 2 ^ by }
    ensures bound { result < 2 ^ 51 }
{
    significand << by
}

// The whole quotient and what it leaves over.
pub(crate) fn quotient(dividend: u64, divisor: u64) -> (u64, u64)
    requires { 0 < divisor }
    ensures { result ≡ (dividend / divisor, dividend % divisor) }
{
    (dividend / divisor, dividend % divisor)
}

// The bits from bit `k` up, and those below it.
pub(crate) fn cut(number: u64, k: u32) -> (u64, u64)
    requires { k < 64 }
    ensures { result ≡ (number / 2 ^ k, number % 2 ^ k) }
{
    (number >> k, number & ((1 << k) - 1))
}

// How far main has to be moved up to stand from bit 50 down, and main so moved.
pub(crate) fn lifted(main: u64) -> (u32, u64)
    requires some { 0 < main }
    requires fits { main < 2 ^ 51 }
    ensures value { result ≡ (lift_of main, main * 2 ^ lift_of main) }
    ensures lift_bound { result.0 ≤ 50 }
    ensures bound { result.1 < 2 ^ 51 }
{
    let lift = main.leading_zeros() - 13;
    (lift, main << lift)
}
