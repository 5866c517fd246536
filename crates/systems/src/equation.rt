// A test of an equation between sums of products, in any system.
ghost use Rattle.std.specs.Prelude.{◌≡◌, ◌%◌, ◌^◌, ◌<◌, ◌==◌};
ghost use Rattle.systems.specs.Equations.{left_side, right_side, balanced};

use crate::system::System;

// The equation `first` × `second` + `third` × `fourth` = `fifth` × `sixth` + `seventh`.
#[derive(Clone, Copy, PartialEq, Eq, Debug)]
pub struct Equation {
    pub first: u64,
    pub second: u64,
    pub third: u64,
    pub fourth: u64,
    pub fifth: u64,
    pub sixth: u64,
    pub seventh: u64,
}

impl Equation {
    // The one whose seven numbers are 0.
    pub const ZERO: Equation = Equation {
        first: 0,
        second: 0,
        third: 0,
        fourth: 0,
        fifth: 0,
        sixth: 0,
        seventh: 0,
    };

    // An element for the left side.
    #[tactic(auto, using(crate::proofs::Remainders::two_products))]
    fn left<S: System>(self, system: &S) -> S::Element
        ensures { S.remainder result ≡ left_side self % S.modulus }
    {
        let front = system.product(system.take_in(self.first), system.take_in(self.second));
        let back = system.product(system.take_in(self.third), system.take_in(self.fourth));
        system.sum(front, back)
    }

    // An element for the right side.
    #[tactic(auto, using(crate::proofs::Remainders::product_and_term))]
    fn right<S: System>(self, system: &S) -> S::Element
        ensures { S.remainder result ≡ right_side self % S.modulus }
    {
        let product = system.product(system.take_in(self.fifth), system.take_in(self.sixth));
        system.sum(product, system.take_in(self.seventh))
    }

    // Whether both sides have the same remainder. Where both are below 2^56 that is whether they are equal, in every system.
    #[tactic(auto, using(crate::proofs::Remainders::told_apart))]
    pub fn holds<S: System>(self, system: &S) -> bool
        ensures remainders { result ≡ (left_side self % S.modulus == right_side self % S.modulus) }
        ensures numbers { left_side self < 2 ^ 56 → right_side self < 2 ^ 56 → result ≡ balanced self }
    {
        system.same(self.left(system), self.right(system))
    }
}
