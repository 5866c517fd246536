// The writer over numbers and slices.
ghost use Rattle.std.specs.Prelude.{◌≡◌, length};
ghost use Rattle.hints.specs.Writer.{written};
ghost use Rattle.kelfrudd.specs.Written.{seven, written_reply, written_number, written_places};

use crate::refusal::{Refusal, number_told};
use binary32::Word;
use hints::{Written, write_word};

// The word and the six hints, in their order.
fn seven(written: Written) -> [u64; 7]
    ensures { result ≡ seven written }
{
    let Written { word, hints } = written;
    let [main, rest, lift, keep, drop, up] = <[u64; 6]>::from(hints);
    [u64::from(word.bits), main, rest, lift, keep, drop, up]
}

// Lays the step out in the first places. A refusal leaves `out` as it was.
fn write(code: u32, first: Word, second: Word, out: &mut [u64]) -> Result<(), Refusal>
    ensures reply { result ≡ written_reply (length out.old) (written code first.bits second.bits) }
    ensures after { out.new ≡ written_places (written code first.bits second.bits) out.old }
{
    let places = out.first_chunk_mut::<7>().ok_or(Refusal::TooShort)?;
    let written = write_word(code, first, second)?;
    *places = seven(written);
    Ok(())
}

// Writes the step of the operation with this code on two words: 0, and its word and six hints in the first seven places of `out`; or the
// number of the refusal, and `out` is as it was.
pub fn write_step(code: u32, first: u32, second: u32, out: &mut [u64]) -> u32
    ensures reply { result ≡ written_number (length out.old) (written code first second) }
    ensures after { out.new ≡ written_places (written code first second) out.old }
{
    number_told(write(code, Word { bits: first }, Word { bits: second }, out))
}
