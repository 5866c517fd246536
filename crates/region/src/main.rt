// Reads requests from standard input, one to a line, and prints for each the steps that show whether the position lies in the region,
// what became of them on the sheets, and the verdict. A line that is no request is reported by its number. The last line says how
// many lines there were of each kind.
#![tactic(auto)]

use regions::{Report, Request, Tally, plan, read_request, report_on};
use runs::{ClosedCall, Run, replay};
use std::alloc::{AllocError, Global};
use std::io;
use std::io::{BufRead, BufReader};
use systems::{Pair, Wrapping};

// The weight of the closing numbers: 2^32, one more than the largest word.
const WEIGHT: u64 = 0x1_0000_0000;

// The request on a sheet over each system.
fn show(heap: Global, serial: u32, request: Request) -> Result<Report, AllocError> {
    let calls = plan(request, serial);
    let run = Run {
        serial,
        weight: WEIGHT,
        opened: &calls,
        closed: Some(&[ClosedCall::ClosingNumber]),
    };
    let replayed = replay(heap, Wrapping, Pair, run)?;
    Ok(report_on(request, &replayed))
}

fn main(rt: HostRuntime) -> io::Result<()> {
    let mut tally = Tally::new();
    let lines = BufReader::new(rt.alloc(), rt.stdin())?.split(rt.alloc(), b'\n');
    for (i, line) in lines.enumerate() {
        let line = line?;
        // The number is the sheet's serial too, which has 32 bits and stops at the highest.
        let number = u32::try_from(i + 1).unwrap_or(u32::MAX);
        match read_request(&line) {
            Ok(request) => {
                let report = show(rt.alloc(), number, request)?;
                println!(rt; "line {number}: {report}")?;
                tally.count(Some(report.verdict));
            }
            Err(fault) => {
                println!(rt; "line {number}: {fault}")?;
                tally.count(None);
            }
        }
    }
    println!(rt; "{tally}")
}
