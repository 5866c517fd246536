// Remainders modulo a number of at most 32 bits, which is a parameter of the type.
ghost use Rattle.std.specs.Prelude.{◌≡◌, ◌+◌, ◌*◌, ◌%◌, ◌^◌, ◌<◌, ◌≤◌};

use std::ops::{Add, Mul};

// A remainder modulo `M`. Two remainders are below 2^32, so that their sum and their product fit 64 bits.
#[derive(Clone, Copy, PartialEq, Eq)]
pub(crate) struct Residue<const M: u64> {
    value: u64,
    ghost below: { value < M },
    ghost narrow: { M ≤ 2 ^ 32 },
}

impl<const M: u64> Residue<M> {
    // The remainder of `n`.
    pub(crate) fn of(n: u64) -> Self
        requires some { 0 < M }
        requires narrow { M ≤ 2 ^ 32 }
        ensures { result.value ≡ n % M }
    {
        Residue { value: n % M }
    }

    pub(crate) fn value(self) -> u64
        ensures { result ≡ self.entry.value }
    {
        self.value
    }
}

impl<const M: u64> Add for Residue<M> {
    type Output = Residue<M>;

    ghost add_gives = { λ a b sum. sum.value ≡ (a.value + b.value) % M };

    fn add(self, other: Residue<M>) -> Residue<M> {
        Residue {
            value: (self.value + other.value) % M,
        }
    }
}

impl<const M: u64> Mul for Residue<M> {
    type Output = Residue<M>;

    ghost mul_gives = { λ a b product. product.value ≡ a.value * b.value % M };

    fn mul(self, other: Residue<M>) -> Residue<M> {
        Residue {
            value: self.value * other.value % M,
        }
    }
}
