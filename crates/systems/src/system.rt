// The trait of a number system.
ghost use Rattle.std.specs.Prelude.{◌≡◌, ℕ, ◌+◌, ◌*◌, ◌%◌, ◌^◌, ◌<◌, ◌≤◌, ◌==◌};

// A number system works with remainders modulo a fixed modulus. An element stands for one remainder; nothing says that a
// remainder has one element only, so two elements are compared by `same` and never as values.
pub trait System: Copy {
    type Element: Copy;

    // What is divided by.
    ghost modulus: { ℕ };

    // The remainder that an element stands for.
    ghost remainder: { Self.Element → ℕ };

    // An element for the remainder of `n`.
    fn take_in(&self, n: u64) -> Self::Element
        ensures { remainder result ≡ n % modulus };

    fn sum(&self, a: Self::Element, b: Self::Element) -> Self::Element
        ensures { remainder result ≡ (remainder a + remainder b) % modulus };

    fn product(&self, a: Self::Element, b: Self::Element) -> Self::Element
        ensures { remainder result ≡ remainder a * remainder b % modulus };

    // Whether `a` and `b` stand for the same remainder.
    fn same(&self, a: Self::Element, b: Self::Element) -> bool
        ensures { result ≡ (remainder a == remainder b) };

    // The remainder that `e` stands for.
    fn read_back(&self, e: Self::Element) -> u64
        ensures { result ≡ remainder e };

    // Numbers below 2^56 are told apart by their remainders.
    ghost large: { 2 ^ 56 ≤ modulus };

    // A remainder fits 64 bits.
    ghost fits: { modulus ≤ 2 ^ 64 };

    // No remainder reaches the modulus.
    ghost below: { (e : Self.Element) → remainder e < modulus };
}
