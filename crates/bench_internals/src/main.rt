//! Runs an operation on bits or words with the repeats that a line of stdin requests, and prints a
//! checksum of its results.
//!
//! A line is `NAME ROWS LEFT RIGHT REPEATS`, for example `and 16384 3 5 1000`; NAME is one of
//! `Operation::named`. tools/bench/words.py compares its time with that of the loops of
//! tools/bench/words.c, which print the same checksums.
#![tactic(auto)]

mod bits;
mod job;
mod made;
mod packed;

use job::{Job, Operation};
use sel_bits::faults::PolarsResult;
use std::alloc::Global;
use std::io;

fn main(rt: HostRuntime) -> io::Result<()> {
    for line in rt.lines(rt.alloc()) {
        match answer_line(rt.alloc(), line?.as_str()) {
            Some(number) => println!(rt; "{number}")?,
            None => println!(rt; "no answer")?,
        }
    }
    Ok(())
}

/// Returns the checksum for a line; none if the line is bad or an allocation fails.
fn answer_line(alloc: Global, line: &str) -> Option<u64> {
    let job = Job::parse(alloc, line)?;
    answer(alloc, &job).ok()
}

fn answer(alloc: Global, job: &Job) -> PolarsResult<u64> {
    match job.operation {
        Operation::And => bits::and(alloc, job),
        Operation::SetBits => bits::set_bits(alloc, job),
        Operation::Pext => packed::pext(alloc, job),
        Operation::PextFour => packed::pext_four(alloc, job),
    }
}
