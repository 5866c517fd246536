// A word of 32 bits: its fields, its class with the normal form, and its making from sign and magnitude.
ghost use Rattle.std.specs.Prelude.{◌≡◌, ◌+◌, ◌-◌, ◌*◌, ◌/◌, ◌%◌, ◌^◌, ◌<◌, ◌≤◌};
ghost use Rattle.binary32.specs.Words.{sign_bit, field_of, fraction_of, magnitude_of, class_of, class_with, composed, turned_of, normal_of};
ghost use Rattle.binary32.specs.Normal.{Sized};
ghost use Rattle.binary32.specs.Sizes.{size};

// The 32 bits of a binary32 datum. Every pattern is one.
#[derive(Clone, Copy, PartialEq, Eq, Debug)]
pub struct Word {
    pub bits: u32,
}

// The absolute value of a finite nonzero word is `significand` × 2^(`exponent` − 172), with a
// significand from 2^23 to 2^24 − 1. The exponent is kept 172 too high, so it runs from 0 to 276.
#[derive(Clone, Copy, PartialEq, Eq, Debug)]
pub struct NormalForm {
    pub significand: u32,
    pub exponent: u32,
}

// What a word stands for, apart from its sign.
#[derive(Clone, Copy, PartialEq, Eq, Debug)]
pub enum Class {
    Nan,
    Infinity,
    Zero,
    Finite(NormalForm),
}

// `width` bits of `bits`, from bit `low` up.
fn part(bits: u32, low: u32, width: u32) -> u32
    requires low_fits { low < 32 }
    requires width_fits { width < 32 }
    ensures { result ≡ bits / 2 ^ low % 2 ^ width }
{
    (bits >> low) & ((1 << width) - 1)
}

// The normal form of a subnormal, whose fraction is not 0: its highest bit is moved up to bit 23.
fn normalized(fraction: u32) -> NormalForm
    requires some { 0 < fraction }
    requires fits { fraction < 2 ^ 23 }
    ensures { result ≡ normal_of 0 fraction }
{
    let zeros = fraction.leading_zeros() - 8;
    NormalForm {
        significand: fraction << zeros,
        exponent: 23 - zeros,
    }
}

// The class of a word with this exponent field and this fraction.
fn class_of(field: u32, fraction: u32) -> Class
    requires field_fits { field < 256 }
    requires fraction_fits { fraction < 2 ^ 23 }
    ensures { result ≡ class_with field fraction }
{
    if field == 255 {
        return if fraction == 0 {
            Class::Infinity
        } else {
            Class::Nan
        };
    }
    if field > 0 {
        return Class::Finite(NormalForm {
            significand: 0x80_0000 + fraction,
            exponent: field + 22,
        });
    }
    if fraction == 0 {
        Class::Zero
    } else {
        Class::Finite(normalized(fraction))
    }
}

impl Word {
    // The word that every NaN result is.
    pub const NAN: Word = Word { bits: 0x7fc0_0000 };

    pub const INFINITY: Word = Word { bits: 0x7f80_0000 };

    pub const ZERO: Word = Word { bits: 0 };

    pub const ONE: Word = Word { bits: 0x3f80_0000 };

    // Bit 31.
    pub fn is_negative(self) -> bool
        ensures { result ≡ sign_bit self.bits }
    {
        part(self.bits, 31, 1) == 1
    }

    // Bits 30 to 23.
    pub fn exponent_field(self) -> u32
        ensures { result ≡ field_of self.bits }
    {
        part(self.bits, 23, 8)
    }

    // Bits 22 to 0.
    pub fn fraction(self) -> u32
        ensures { result ≡ fraction_of self.bits }
    {
        part(self.bits, 0, 23)
    }

    // Bits 30 to 0.
    pub fn magnitude(self) -> u32
        ensures { result ≡ magnitude_of self.bits }
    {
        part(self.bits, 0, 31)
    }

    // What the word stands for. The normal form of a finite nonzero word has its size.
    #[tactic(auto, using(crate::proofs::Normal::class_stands))]
    pub fn class(self) -> Class
        ensures value { result ≡ class_of self.bits }
        ensures sized { Sized result (size (magnitude_of self.bits)) }
    {
        class_of(self.exponent_field(), self.fraction())
    }

    // The word with this sign and the low 31 bits of `magnitude`.
    pub fn compose(negative: bool, magnitude: u32) -> Word
        ensures { result.bits ≡ composed negative magnitude }
    {
        let low = part(magnitude, 0, 31);
        Word {
            bits: if negative { 0x8000_0000 + low } else { low },
        }
    }

    // The word with its sign turned; a NaN is left as it is.
    pub fn turned(self) -> Word
        ensures { result.bits ≡ turned_of self.bits }
    {
        if self.class() == Class::Nan {
            return self;
        }
        Word::compose(!self.is_negative(), self.magnitude())
    }
}
