// What is printed of a request.
ghost use Rattle.std.specs.Prelude.{Some};
ghost use Rattle.regions.specs.Texts.{point_text, request_text, claim_text, refusal_text, outcome_text, step_text, verdict_text, closing_text, closings_text, steps_text, agreement_text, report_text, tally_text};

use crate::claims::Claim;
use crate::count::Tally;
use crate::findings::{Outcome, Report, Step, Verdict};
use crate::reading::{Point, Request};
use checks::Flaw;
use notation::{Numeral, name_of};
use sheet::Refusal;
use std::fmt;

impl fmt::Display for Point {
    ghost output = { λ point. Some (point_text point) };

    fn fmt<W: fmt::Write>(&self, f: &mut fmt::Formatter<W>) -> fmt::Result {
        let x = Numeral(self.x);
        let y = Numeral(self.y);
        write!(f, "{x} {y}")
    }
}

impl fmt::Display for Request {
    ghost output = { λ request. Some (request_text request) };

    fn fmt<W: fmt::Write>(&self, f: &mut fmt::Formatter<W>) -> fmt::Result {
        let Request {
            position,
            centre,
            radius,
            forged,
        } = *self;
        let radius = Numeral(radius);
        if forged {
            write!(
                f,
                "position {position}, centre {centre}, radius {radius}, the root's up turned"
            )
        } else {
            write!(f, "position {position}, centre {centre}, radius {radius}")
        }
    }
}

// The step with its cell, the cells of its operands and its word. A root has one operand.
impl fmt::Display for Claim {
    ghost output = { λ claim. Some (claim_text claim) };

    fn fmt<W: fmt::Write>(&self, f: &mut fmt::Formatter<W>) -> fmt::Result {
        let cell = self.cell;
        let name = name_of(self.operation);
        let first = self.first;
        let second = self.second;
        let word = Numeral(self.written.word);
        if self.operation.is_root() {
            write!(f, "cell {cell}: {name} {first} = {word}")
        } else {
            write!(f, "cell {cell}: {name} {first} {second} = {word}")
        }
    }
}

// The refusal's number and what it tells besides. This type and the four below carry the text of what has none of its own: another
// crate's refusal, an option, arrays and a test.
#[derive(Clone, Copy)]
struct RefusedBy(Refusal);

impl fmt::Display for RefusedBy {
    ghost output = { λ by. Some (refusal_text by.0) };

    fn fmt<W: fmt::Write>(&self, f: &mut fmt::Formatter<W>) -> fmt::Result {
        let number = self.0.number();
        match self.0 {
            Refusal::Full | Refusal::UnknownCode | Refusal::BadTicket => {
                write!(f, "refused by {number}")
            }
            Refusal::NotTaken { operand } | Refusal::NotAccepted { operand } => {
                let operand = u32::from(operand);
                write!(f, "refused by {number}, operand {operand}")
            }
            Refusal::Flawed {
                cell,
                flaw: Flaw::Width(hint),
            } => {
                let hint = u32::from(hint);
                write!(f, "refused by {number}, cell {cell}, hint {hint}")
            }
            Refusal::Flawed { cell, .. } => write!(f, "refused by {number}, cell {cell}"),
        }
    }
}

impl fmt::Display for Outcome {
    ghost output = { λ outcome. Some (outcome_text outcome) };

    fn fmt<W: fmt::Write>(&self, f: &mut fmt::Formatter<W>) -> fmt::Result {
        match *self {
            Outcome::Accepted => write!(f, "accepted"),
            Outcome::Refused(refusal) => {
                let by = RefusedBy(refusal);
                write!(f, "{by}")
            }
            Outcome::Unanswered => write!(f, "unanswered"),
        }
    }
}

impl fmt::Display for Step {
    ghost output = { λ step. Some (step_text step) };

    fn fmt<W: fmt::Write>(&self, f: &mut fmt::Formatter<W>) -> fmt::Result {
        let Step { claim, outcome } = *self;
        write!(f, "{claim}, {outcome}")
    }
}

impl fmt::Display for Verdict {
    ghost output = { λ verdict. Some (verdict_text verdict) };

    fn fmt<W: fmt::Write>(&self, f: &mut fmt::Formatter<W>) -> fmt::Result {
        match self {
            Verdict::Inside => write!(f, "inside"),
            Verdict::Outside => write!(f, "outside"),
            Verdict::NotShown => write!(f, "not shown"),
        }
    }
}

// A closing number in sixteen digits.
#[derive(Clone, Copy)]
struct Closing(Option<u64>);

impl fmt::Display for Closing {
    ghost output = { λ closing. Some (closing_text closing.0) };

    fn fmt<W: fmt::Write>(&self, f: &mut fmt::Formatter<W>) -> fmt::Result {
        match self.0 {
            Some(number) => write!(f, "{number:016X}"),
            None => write!(f, "none"),
        }
    }
}

// The steps, each on a line of its own.
#[derive(Clone, Copy)]
struct Lines([Step; 7]);

impl fmt::Display for Lines {
    ghost output = { λ lines. Some (steps_text lines.0) };

    fn fmt<W: fmt::Write>(&self, f: &mut fmt::Formatter<W>) -> fmt::Result {
        for step in self.0 {
            write!(f, "\n  {step}")?;
        }
        Ok(())
    }
}

// Both closing numbers.
#[derive(Clone, Copy)]
struct Closings([Option<u64>; 2]);

impl fmt::Display for Closings {
    ghost output = { λ closings. Some (closings_text closings.0) };

    fn fmt<W: fmt::Write>(&self, f: &mut fmt::Formatter<W>) -> fmt::Result {
        let [first, second] = self.0;
        let first = Closing(first);
        let second = Closing(second);
        write!(f, "{first} and {second}")
    }
}

// Whether both sheets gave the same answers.
#[derive(Clone, Copy)]
struct Agreement(bool);

impl fmt::Display for Agreement {
    ghost output = { λ agreement. Some (agreement_text agreement.0) };

    fn fmt<W: fmt::Write>(&self, f: &mut fmt::Formatter<W>) -> fmt::Result {
        if self.0 {
            write!(f, "both sheets gave the same answers")
        } else {
            write!(f, "the sheets gave different answers")
        }
    }
}

// The request, its steps, whether the sheets agree, their closing numbers and the verdict, each on a line.
impl fmt::Display for Report {
    ghost output = { λ report. Some (report_text report) };

    fn fmt<W: fmt::Write>(&self, f: &mut fmt::Formatter<W>) -> fmt::Result {
        let Report {
            request,
            steps,
            agree,
            verdict,
            closings,
        } = *self;
        let steps = Lines(steps);
        let agreement = Agreement(agree);
        let closings = Closings(closings);
        write!(
            f,
            "{request}{steps}\n  {agreement}\n  closing numbers {closings}\n  {verdict}"
        )
    }
}

impl fmt::Display for Tally {
    ghost output = { λ tally. Some (tally_text tally) };

    fn fmt<W: fmt::Write>(&self, f: &mut fmt::Formatter<W>) -> fmt::Result {
        let Tally {
            inside,
            outside,
            not_shown,
            bad,
        } = *self;
        write!(
            f,
            "{inside} inside, {outside} outside, {not_shown} not shown, {bad} bad lines"
        )
    }
}
