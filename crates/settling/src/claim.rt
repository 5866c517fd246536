// A step's claimed word, settled with the writer's hints.
ghost use Rattle.std.specs.Prelude.{◌≡◌, is_ok};
ghost use Rattle.settling.specs.Claimed.{is_accepted};

use binary32::Word;
use hints::write_step;
use notation::Request;
use sheet::{OpenSheet, Refusal};
use systems::System;

// Puts the operands on a sheet, enters the claim that the step has this word, and settles it.
fn settle_claim<S: System>(system: S, step: Request, word: Word) -> Result<u64, Refusal>
    ensures { is_ok result ≡ is_accepted step word }
{
    let mut sheet = OpenSheet::new(0, 0, system);
    let first = sheet.input(step.first)?;
    let second = sheet.input(step.second)?;
    let ticket = sheet.enter(step.operation.into(), first, second, word)?;
    let written = write_step(step.operation, step.first, step.second);
    sheet.settle(ticket, written.hints)
}

// Whether a sheet over the system accepts the claim that the step has this word, settled with the writer's hints.
pub fn is_accepted<S: System>(system: S, step: Request, word: Word) -> bool
    ensures { result ≡ is_accepted step word }
{
    settle_claim(system, step, word).is_ok()
}
