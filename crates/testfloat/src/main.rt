// Reads vectors from standard input, one to a line, holds each to the writer, and settles it on sheets over both systems, once
// with the word that it expects and once with that word damaged. It prints the vectors that differ and the lines that are no
// vector, the first of each, then how many vectors of each operation agree and differ, how many in all, and how many claims
// were accepted and refused in each system.
#![tactic(auto)]

use binary32::Operation;
use notation::name_of;
use settling::Settlements;
use std::io;
use std::io::{BufRead, BufReader};
use systems::{Pair, Wrapping};
use writing::{Counts, NoVector, Verdict, judge, read_vector};

// Of the vectors that differ so many are printed, and of the lines that are no vector.
const PRINTED: u64 = 20;

// Prints a verdict, unless the vector agrees or enough of its kind were printed.
fn report(
    rt: &HostRuntime,
    number: usize,
    verdict: Result<Verdict, NoVector>,
    counts: &Counts,
) -> io::Result<()> {
    match verdict {
        Ok(verdict @ Verdict::Differs { .. }) if counts.all.differing <= PRINTED => {
            println!(rt; "line {number}: {verdict}")
        }
        Err(no_vector) if counts.unread <= PRINTED => println!(rt; "line {number}: {no_vector}"),
        _ => Ok(()),
    }
}

fn report_more(rt: &HostRuntime, count: u64, what: &str) -> io::Result<()> {
    if count <= PRINTED {
        return Ok(());
    }
    let more = count - PRINTED;
    println!(rt; "{more} more {what}")
}

fn summary(rt: &HostRuntime, counts: &Counts) -> io::Result<()> {
    report_more(rt, counts.all.differing, "differ")?;
    report_more(rt, counts.unread, "are no vector")?;
    for operation in Operation::ALL {
        let name = name_of(operation);
        let count = counts.count_of(operation);
        println!(rt; "{name}: {count}")?;
    }
    let all = counts.all;
    let unread = counts.unread;
    println!(rt; "total: {all}, {unread} no vector")
}

fn settled(rt: &HostRuntime, system: &str, settlements: Settlements) -> io::Result<()> {
    let Settlements { expected, damaged } = settlements;
    println!(rt; "{system}: {expected}")?;
    println!(rt; "{system}, damaged: {damaged}")
}

fn main(rt: HostRuntime) -> io::Result<()> {
    let mut counts = Counts::new();
    let mut wrapping = Settlements::new();
    let mut pair = Settlements::new();
    let lines = BufReader::new(rt.alloc(), rt.stdin())?.split(rt.alloc(), b'\n');
    for (i, line) in lines.enumerate() {
        let line = line?;
        let verdict = judge(&line);
        counts.add(verdict);
        report(&rt, i + 1, verdict, &counts)?;
        if let Some(vector) = read_vector(&line) {
            wrapping.settle(Wrapping, vector);
            pair.settle(Pair, vector);
        }
    }
    summary(&rt, &counts)?;
    settled(&rt, "sheets modulo 2^64", wrapping)?;
    settled(&rt, "sheets over the pair", pair)
}
