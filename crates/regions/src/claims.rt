// The seven steps of a request: the differences of position and centre, their squares, the sum, its root, and the comparison with
// the radius.
ghost use Rattle.std.specs.Prelude.{◌≡◌};
ghost use Rattle.regions.specs.Claims.{source_at, source_of, claimed, turned, forged_if, claims_of};

use crate::reading::Request;
use binary32::{Operation, Word};
use hints::{Hints, Written, write_step};

// A cell and the word that it holds once it is accepted.
#[derive(Clone, Copy, PartialEq, Eq, Debug)]
pub(crate) struct Source {
    pub cell: u64,
    pub word: Word,
}

// That the operation on the words of two cells has a word, with the hints that back it.
#[derive(Clone, Copy, PartialEq, Eq, Debug)]
pub struct Claim {
    pub cell: u64,
    pub operation: Operation,
    pub first: u64,
    pub second: u64,
    pub written: Written,
}

impl Claim {
    // The claim's cell with its word.
    fn source(self) -> Source
        ensures { result ≡ source_of self }
    {
        Source {
            cell: self.cell,
            word: self.written.word,
        }
    }
}

fn given(cell: u64, word: Word) -> Source
    ensures { result ≡ source_at cell word }
{
    Source { cell, word }
}

// The writer's claim for an operation.
#[tactic(auto, unfolding(crate::specs::Claims::claimed))]
fn backed(cell: u64, operation: Operation, first: Source, second: Source) -> Claim
    ensures { result ≡ claimed cell operation first second }
{
    Claim {
        cell,
        operation,
        first: first.cell,
        second: second.cell,
        written: write_step(operation, first.word, second.word),
    }
}

// The hints with `up` turned, which are no step's where these are.
fn turn(hints: Hints) -> Hints
    ensures { result ≡ turned hints }
{
    Hints {
        up: u64::from(hints.up == 0),
        ..hints
    }
}

// The claim, with its hints forged if so asked.
fn forge_if(forged: bool, claim: Claim) -> Claim
    ensures { result ≡ forged_if forged claim }
{
    if !forged {
        return claim;
    }
    Claim {
        written: Written {
            hints: turn(claim.written.hints),
            ..claim.written
        },
        ..claim
    }
}

// The claims of a request, whose words are in the cells 0 to 4. A root has no second operand.
pub(crate) fn claims_of(request: Request) -> [Claim; 7]
    ensures { result ≡ claims_of request }
{
    let dx = backed(
        5,
        Operation::Subtract,
        given(0, request.position.x),
        given(2, request.centre.x),
    );
    let dy = backed(
        6,
        Operation::Subtract,
        given(1, request.position.y),
        given(3, request.centre.y),
    );
    let dx_squared = backed(7, Operation::Multiply, dx.source(), dx.source());
    let dy_squared = backed(8, Operation::Multiply, dy.source(), dy.source());
    let sum = backed(9, Operation::Add, dx_squared.source(), dy_squared.source());
    let root = backed(
        10,
        Operation::SquareRoot,
        sum.source(),
        given(0, Word::ZERO),
    );
    let inside = backed(
        11,
        Operation::AtMost,
        root.source(),
        given(4, request.radius),
    );
    [
        dx,
        dy,
        dx_squared,
        dy_squared,
        sum,
        forge_if(request.forged, root),
        inside,
    ]
}
