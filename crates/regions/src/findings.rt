// What the answers of two sheets to the calls of a request say.
ghost use Rattle.std.specs.Prelude.{◌≡◌, ◌<◌, Decides};
ghost use Rattle.regions.specs.Findings.{answer_at, once_settled, became_by, outcome_from, step_by, steps_from, verdict_on, closing_of, Agreed, report_of};

use crate::claims::{Claim, claims_of};
use crate::reading::Request;
use binary32::Word;
use runs::{ClosedAnswer, OpenAnswer, Replayed};
use sheet::{Operand, Refusal};
use std::array::from_fn;

// What became of a claim.
#[derive(Clone, Copy, PartialEq, Eq, Debug)]
pub enum Outcome {
    Accepted,
    // By the first call, to enter or to settle it, that was refused.
    Refused(Refusal),
    // The answers are not those to entering and settling a claim.
    Unanswered,
}

#[derive(Clone, Copy, PartialEq, Eq, Debug)]
pub enum Verdict {
    Inside,
    Outside,
    // The comparison was not accepted.
    NotShown,
}

// A claim and what became of it.
#[derive(Clone, Copy, PartialEq, Eq, Debug)]
pub struct Step {
    pub claim: Claim,
    pub outcome: Outcome,
}

// What the sheets say of a request.
#[derive(Clone, Copy, PartialEq, Eq, Debug)]
pub struct Report {
    pub request: Request,
    pub steps: [Step; 7],
    // Whether both sheets gave the same answers while they were open.
    pub agree: bool,
    pub verdict: Verdict,
    // That of the sheet over each system, if there is one.
    pub closings: [Option<u64>; 2],
}

// The answer at a place. Past the last one it is what a read of a cell that is not taken gets.
fn answer_at(answers: &[OpenAnswer], at: usize) -> OpenAnswer
    ensures { result ≡ answer_at answers.now at }
{
    let not_taken = Refusal::NotTaken {
        operand: Operand::First,
    };
    answers
        .get(at)
        .copied()
        .unwrap_or(OpenAnswer::Read(Err(not_taken)))
}

fn once_settled(settled: OpenAnswer) -> Outcome
    ensures { result ≡ once_settled settled }
{
    match settled {
        OpenAnswer::Settle(Ok(_)) => Outcome::Accepted,
        OpenAnswer::Settle(Err(refusal)) => Outcome::Refused(refusal),
        _ => Outcome::Unanswered,
    }
}

fn became(entered: OpenAnswer, settled: OpenAnswer) -> Outcome
    ensures { result ≡ became_by entered settled }
{
    match entered {
        OpenAnswer::Enter(Ok(_)) => once_settled(settled),
        OpenAnswer::Enter(Err(refusal)) => Outcome::Refused(refusal),
        _ => Outcome::Unanswered,
    }
}

// The outcome of the claim whose entering was answered at a place, and whose settling at the next.
fn outcome_at(answers: &[OpenAnswer], at: usize) -> Outcome
    requires { at < 20 }
    ensures { result ≡ outcome_from answers.now at }
{
    became(answer_at(answers, at), answer_at(answers, at + 1))
}

// The claim whose entering was answered at a place, with its outcome.
fn step_at(claim: Claim, answers: &[OpenAnswer], at: usize) -> Step
    requires { at < 20 }
    ensures { result ≡ step_by answers.now at claim }
{
    Step {
        claim,
        outcome: outcome_at(answers, at),
    }
}

// The answers to five inputs come first, then two for each claim.
#[tactic(auto, using(crate::proofs::Plans::seven_is))]
fn steps(claims: [Claim; 7], answers: &[OpenAnswer]) -> [Step; 7]
    ensures { result ≡ steps_from answers.now 5 claims }
{
    from_fn(|n| step_at(claims[n], answers, 5 + 2 * n))
}

// What the word of the comparison says: it is 1 for yes and 0 for no.
fn verdict_on(read: OpenAnswer) -> Verdict
    ensures { result ≡ verdict_on read }
{
    match read {
        OpenAnswer::Read(Ok(Word::ONE)) => Verdict::Inside,
        OpenAnswer::Read(Ok(_)) => Verdict::Outside,
        _ => Verdict::NotShown,
    }
}

fn closing(answers: &[ClosedAnswer]) -> Option<u64>
    ensures { result ≡ closing_of answers.now }
{
    match answers {
        [ClosedAnswer::ClosingNumber(number)] => Some(*number),
        _ => None,
    }
}

// Whether both sheets gave the same answers while they were open.
#[tactic(auto, using(crate::proofs::Answers::same))]
fn agree(replayed: &Replayed) -> bool
    ensures { Decides result (Agreed replayed.now) }
{
    let Replayed { first, second } = replayed;
    first.opened == second.opened
}

// What the sheets' answers to the calls of a request say of it. Outcomes and verdict are by those of the first sheet.
pub fn report_on(request: Request, replayed: &Replayed) -> Report
    ensures value { result ≡ report_of request replayed.now result.agree }
    ensures agree { Decides result.agree (Agreed replayed.now) }
{
    let Replayed { first, second } = replayed;
    Report {
        request,
        steps: steps(claims_of(request), &first.opened),
        agree: agree(replayed),
        verdict: verdict_on(answer_at(&first.opened, 19)),
        closings: [closing(&first.closed), closing(&second.closed)],
    }
}
