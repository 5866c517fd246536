// The closing number: the accepted words of a table, folded in a number system.
ghost use Rattle.std.specs.Prelude.{◌≡◌, ℕ, ◌%◌, [], ◌∷◌};
ghost use Rattle.sheet.specs.Closing.{words_of, fold_from, closing_number};
ghost use Rattle.sheet.specs.Tables.{standing_of};

use crate::cell::{State, word_in};
use crate::table::Table;
use binary32::Word;
use systems::System;

// The total times the weight, plus the word.
#[tactic(auto, using(systems::proofs::Remainders::product_and_term))]
fn with_word<S: System>(system: &S, weight: S::Element, total: S::Element, word: Word) -> S::Element
    ensures { (w n : ℕ) → S.remainder weight ≡ w % S.modulus → S.remainder total ≡ n % S.modulus → S.remainder result ≡ fold_from w n (word ∷ []) % S.modulus }
{
    system.sum(
        system.product(total, weight),
        system.take_in(u64::from(word.bits)),
    )
}

// The total with the word of an accepted cell; any other cell leaves it as it is.
fn with_cell<S: System>(
    system: &S,
    weight: S::Element,
    total: S::Element,
    state: State,
) -> S::Element
    ensures { (w n : ℕ) → S.remainder weight ≡ w % S.modulus → S.remainder total ≡ n % S.modulus → S.remainder result ≡ fold_from w n (words_of state) % S.modulus }
{
    match word_in(state) {
        Ok(word) => with_word(system, weight, total, word),
        Err(_) => total,
    }
}

// The accepted words in order of their cells, from 0: for each, times the weight, plus the word.
#[tactic(auto, using(crate::proofs::Folds::fold_none, crate::proofs::Folds::fold_more, crate::proofs::Folds::state_in))]
pub(crate) fn fold_words<S: System>(system: &S, weight: u64, table: &Table) -> u64
    ensures { result ≡ closing_number S.modulus weight (standing_of table.now) }
{
    let factor = system.take_in(weight);
    let mut total = system.take_in(0);
    for cell in &table.cells {
        total = with_cell(system, factor, total, cell.state);
    }
    system.read_back(total)
}
