// Words as eight hexadecimal digits with capitals.
ghost use Rattle.std.specs.Prelude.{Some, ◌≡◌, ◌-◌, ◌*◌, ◌/◌, ◌%◌, ◌^◌, ◌<◌, ◌≤◌, map, length, take, Ok, MatchResult};
ghost use Rattle.std.specs.Int.Digits.{number_from_digits};
ghost use Rattle.std.specs.List.{prefix_len};
ghost use Rattle.notation.specs.Numerals.{digit_of, code_of, is_digit, value_of, word_of, places_of, digits_of};

use binary32::Word;
use std::{array, fmt, str};

// The value of a digit, 0 to 9 and A to F. Any other byte is none.
pub fn digit(byte: u8) -> Option<u32>
    ensures { result ≡ digit_of byte }
{
    match byte {
        b'0'..=b'9' => Some(u32::from(byte - b'0')),
        b'A'..=b'F' => Some(u32::from(byte - b'A') + 10),
        _ => None,
    }
}

// The digit of a value below sixteen.
fn capital(value: u32) -> u8
    requires { value < 16 }
    ensures { result ≡ code_of value }
{
    if value < 10 {
        b'0' + value as u8
    } else {
        b'A' + (value - 10) as u8
    }
}

// The word that the text begins with. Where it begins with fewer than eight digits, how many those are.
pub fn read_word(text: &[u8]) -> Result<Word, usize>
    ensures value { result ≡ word_of text.now }
    ensures within { MatchResult result (λ _. 8 ≤ length text.now) (λ count. count ≤ length text.now) }
{
    let front = &text[..text.len().min(8)];
    let mut bits = 0;
    for (count, byte) in front.iter().enumerate() {
        bits = bits * 16 + digit(*byte).ok_or(count)?;
    }
    if front.len() == 8 {
        Ok(Word { bits })
    } else {
        Err(front.len())
    }
}

// The digit at one of the eight places of a word, the highest first.
fn digit_at(word: Word, place: usize) -> u8
    requires { place < 8 }
    ensures { result ≡ code_of (word.bits / 2 ^ (28 - 4 * place) % 16) }
{
    capital((word.bits >> (28 - 4 * place)) % 16)
}

// The digits at the eight places.
fn digits_at_places(word: Word) -> [u8; 8]
    ensures { result ≡ digits_of word.bits }
{
    array::from_fn(|place| digit_at(word, place))
}

// The eight digits of a word, from which it is read again.
#[tactic(auto, using(crate::proofs::Written::word_digits))]
pub fn digits(word: Word) -> [u8; 8]
    ensures value { result ≡ digits_of word.bits }
    ensures read { word_of result ≡ Ok word }
{
    digits_at_places(word)
}

// A word as its eight digits. By `digits`, so that what is printed is what is read back: the library tells of `{:08X}` how it pads,
// and a proof that the two agree is no plainer.
#[derive(Clone, Copy, PartialEq, Eq, Debug)]
pub struct Numeral(pub Word);

impl fmt::Display for Numeral {
    ghost output = { λ numeral. Some (digits_of numeral.0.bits) };

    fn fmt<W: fmt::Write>(&self, f: &mut fmt::Formatter<W>) -> fmt::Result {
        let digits = digits(self.0);
        let text = str::from_utf8(&digits).map_err(|_| fmt::Error)?;
        f.write_str(text)
    }
}
