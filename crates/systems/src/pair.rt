// The system modulo 2147483647 * 2013265921, in which an element is its two remainders.
ghost use Rattle.std.specs.Prelude.{◌≡◌};
ghost use Rattle.systems.specs.Fixed.{Fixed};
ghost use Rattle.systems.specs.Joined.{joined};
ghost use Rattle.std.proofs.Common.{rules};

use crate::residue::Residue;
use crate::system::System;

// 2^31 - 1.
const FIRST_MODULUS: u64 = 2147483647;

// 15 * 2^27 + 1, which has no factor in common with the first modulus.
const SECOND_MODULUS: u64 = 2013265921;

// Times FIRST_MODULUS it leaves 1 modulo SECOND_MODULUS.
const FIRST_INVERSE: u64 = 1039104991;

// A number modulo the product of the two moduli, by its remainder modulo each.
#[derive(Clone, Copy, PartialEq, Eq)]
pub struct Residues {
    first: Residue<FIRST_MODULUS>,
    second: Residue<SECOND_MODULUS>,
}

// The system itself holds nothing.
#[derive(Clone, Copy)]
pub struct Pair;

impl System for Pair {
    type Element = Residues;

    ghost modulus = { 0x3C00000007FFFFFF };

    ghost remainder = { λ e. joined e.first.value e.second.value };

    ghost large = { Prim.search rules };

    ghost fits = { Prim.search rules };

    ghost below = { Prim.search rules };

    fn take_in(&self, n: u64) -> Residues {
        Residues {
            first: Residue::of(n),
            second: Residue::of(n),
        }
    }

    fn sum(&self, a: Residues, b: Residues) -> Residues {
        Residues {
            first: a.first + b.first,
            second: a.second + b.second,
        }
    }

    #[tactic(auto, using(crate::proofs::Joined::joined_product))]
    fn product(&self, a: Residues, b: Residues) -> Residues {
        Residues {
            first: a.first * b.first,
            second: a.second * b.second,
        }
    }

    fn same(&self, a: Residues, b: Residues) -> bool {
        a == b
    }

    // The one number below the modulus that leaves both remainders: as many steps of the first modulus above the
    // first remainder as lead to the second. Twice the second modulus is above the first remainder, so the gap does not fall
    // below 0; it is below 2^33, so its product with the inverse fits 64 bits.
    fn read_back(&self, e: Residues) -> u64
        ensures number { result ≡ joined e.first.value e.second.value }
        ensures fixed { Fixed 2147483647 2013265921 e.first.value e.second.value result }
    {
        let first = e.first.value();
        let gap = e.second.value() + 2 * SECOND_MODULUS - first;
        first + FIRST_MODULUS * (gap * FIRST_INVERSE % SECOND_MODULUS)
    }
}
