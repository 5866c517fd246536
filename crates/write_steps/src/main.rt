// Reads steps from standard input, one to a line, and prints each with its word and its hints. A line that is
// no step is reported by its number. The last line says how many answers there were of each kind.
#![tactic(auto)]

use notation::Fault;
use std::io;
use std::io::{BufRead, BufReader};
use writing::{Answer, Tally, answer_to};

fn report(rt: &HostRuntime, number: usize, answer: &Result<Answer, Fault>) -> io::Result<()> {
    match answer {
        Ok(answer) => println!(rt; "{answer}"),
        Err(fault) => println!(rt; "line {number}: {fault}"),
    }
}

fn main(rt: HostRuntime) -> io::Result<()> {
    let mut tally = Tally::new();
    let lines = BufReader::new(rt.alloc(), rt.stdin())?.split(rt.alloc(), b'\n');
    for (i, line) in lines.enumerate() {
        let answer = answer_to(&line?);
        tally.count(&answer);
        report(&rt, i + 1, &answer)?;
    }
    println!(rt; "{tally}")
}
