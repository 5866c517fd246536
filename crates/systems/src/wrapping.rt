// The system modulo 2^64, in which an element is a number that wraps.
ghost use Rattle.std.specs.Prelude.{◌^◌, ◌<◌};
ghost use Rattle.std.proofs.Common.{rules};

use crate::system::System;

// A number modulo 2^64.
#[derive(Clone, Copy, PartialEq, Eq)]
pub struct Wrapped {
    number: u64,
    ghost below: { number < 2 ^ 64 },
}

// The system itself holds nothing.
#[derive(Clone, Copy)]
pub struct Wrapping;

impl System for Wrapping {
    type Element = Wrapped;

    ghost modulus = { 2 ^ 64 };

    ghost remainder = { λ e. e.number };

    ghost large = { Prim.search rules };

    ghost fits = { Prim.search rules };

    ghost below = { Prim.search rules };

    fn take_in(&self, n: u64) -> Wrapped {
        Wrapped { number: n }
    }

    // Wrapping is what this system is for: the carry out of 64 bits is a multiple of the modulus.
    fn sum(&self, a: Wrapped, b: Wrapped) -> Wrapped {
        Wrapped {
            number: a.number.wrapping_add(b.number),
        }
    }

    fn product(&self, a: Wrapped, b: Wrapped) -> Wrapped {
        Wrapped {
            number: a.number.wrapping_mul(b.number),
        }
    }

    fn same(&self, a: Wrapped, b: Wrapped) -> bool {
        a == b
    }

    fn read_back(&self, e: Wrapped) -> u64 {
        e.number
    }
}
