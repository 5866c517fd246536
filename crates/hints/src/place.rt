// Where a lifted main is cut, and how the cut rounds.
ghost use Rattle.std.specs.Prelude.{◌≡◌, ◌≤◌};
ghost use Rattle.binary32.specs.Words.{composed};
ghost use Rattle.hints.specs.Scheme.{exponent_of, cut_of, up_of, magnitude_from};

use binary32::Word;

// A scale is s + 400. The spacing 2^u of the words around a result has u = s − lift + 27, and u + 149 is what the word
// counts from: so 400 − 27 − 149 is taken from the scale, and the lift.
const TO_EXPONENT: u64 = 224;

// 400 − 149: the cut is at bit u + lift − s.
const TO_PLACE: u64 = 251;

// No main has a bit at 51, so a cut from there on keeps nothing, and one at bit 52 rounds nothing up.
const HIGHEST: u64 = 52;

// A cut at bit `k`. `exponent` is u + 149: the word's magnitude is `exponent` · 2^23 + keep + up.
#[derive(Clone, Copy, PartialEq, Eq, Debug)]
pub struct Cut {
    exponent: u64,
    k: u32,
    ghost bound: { k ≤ 52 },
}

impl Cut {
    // The cut of a main with this lift, in a step of this scale.
    pub fn of(scale: u32, lift: u32) -> Cut
        ensures exponent { result.exponent ≡ exponent_of scale lift }
        ensures place { result.k ≡ cut_of scale lift }
    {
        let exponent = u64::from(scale).saturating_sub(TO_EXPONENT + u64::from(lift));
        let k = (exponent + TO_PLACE + u64::from(lift) - u64::from(scale)).min(HIGHEST);
        Cut {
            exponent,
            k: k as u32,
        }
    }

    pub fn place(self) -> u32
        ensures value { result ≡ self.k }
        ensures bound { result ≤ 52 }
    {
        self.k
    }

    // What the hint up has to be: 1 where what is dropped lies above the middle, or on it and something was left over
    // before or the part that is kept is odd.
    pub fn up(self, rest: u64, keep: u64, drop: u64) -> u64
        ensures { result ≡ up_of self.k rest keep drop }
    {
        let twice = drop.saturating_mul(2);
        let whole = 1 << self.k;
        u64::from(twice > whole || (twice == whole && (rest != 0 || keep % 2 == 1)))
    }

    // The word that keep and up make. It stops at infinity.
    pub fn word(self, negative: bool, keep: u64, up: u64) -> Word
        ensures { result.bits ≡ composed negative (magnitude_from self.exponent keep up) }
    {
        let base = self.exponent.saturating_mul(0x80_0000);
        let magnitude = base
            .saturating_add(keep)
            .saturating_add(up)
            .min(0x7f80_0000);
        Word::compose(negative, magnitude as u32)
    }
}
