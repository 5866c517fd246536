// The calls on a sheet that show whether the position of a request lies in its region.
ghost use Rattle.std.specs.Prelude.{◌≡◌};
ghost use Rattle.regions.specs.Claims.{enter_of, settle_of, calls_of, plan_of};
ghost use Rattle.regions.specs.Distances.{Shows};

use crate::claims::{Claim, claims_of};
use crate::reading::Request;
use runs::OpenCall;
use sheet::Stub;

fn entering(claim: Claim) -> OpenCall
    ensures { result ≡ enter_of claim }
{
    OpenCall::Enter {
        code: u32::from(claim.operation),
        first: claim.first,
        second: claim.second,
        word: claim.written.word,
    }
}

// The ticket goes by the two numbers that the sheet gives it.
fn settling(serial: u32, claim: Claim) -> OpenCall
    ensures { result ≡ settle_of serial claim }
{
    OpenCall::Settle {
        ticket: Stub {
            serial,
            cell: claim.cell,
        },
        hints: claim.written.hints,
    }
}

// The words of the request as inputs, each claim entered and settled, and the last one's word read. Written out: there is no array
// whose length is reckoned from those of others.
#[tactic(auto, using(crate::proofs::Plans::seven_is), unfolding(crate::specs::Claims::calls_of))]
fn laid_out(request: Request, serial: u32, claims: [Claim; 7]) -> [OpenCall; 20]
    ensures { result ≡ calls_of request serial claims }
{
    let [dx, dy, dx_squared, dy_squared, sum, root, inside] = claims;
    [
        OpenCall::Input(request.position.x),
        OpenCall::Input(request.position.y),
        OpenCall::Input(request.centre.x),
        OpenCall::Input(request.centre.y),
        OpenCall::Input(request.radius),
        entering(dx),
        settling(serial, dx),
        entering(dy),
        settling(serial, dy),
        entering(dx_squared),
        settling(serial, dx_squared),
        entering(dy_squared),
        settling(serial, dy_squared),
        entering(sum),
        settling(serial, sum),
        entering(root),
        settling(serial, root),
        entering(inside),
        settling(serial, inside),
        OpenCall::Read(11),
    ]
}

// The law of plans: what the calls of a request show. There is nothing to do.
fn shows(request: Request, serial: u32, calls: [OpenCall; 20])
    requires { calls ≡ plan_of request serial }
    ensures { Shows request serial calls }
{}

// The calls for a request on a sheet with this serial. The comparison that they enter is of the distance with the radius, and a
// forged root is not settled as the writer would settle it.
pub fn plan(request: Request, serial: u32) -> [OpenCall; 20]
    ensures value { result ≡ plan_of request serial }
    ensures shows { Shows request serial result }
{
    let calls = laid_out(request, serial, claims_of(request));
    shows(request, serial, calls);
    calls
}
