//! Reads command lines such as `take 5,n,7 2,n,1` and writes one result line for each. With the
//! argument `tour` it prints the examples of the crate `tour` instead.
#![tactic(auto)]

#[cfg(test)]
mod tests;

use sel_lines::counted::Counted;
use sel_lines::run::{Done, run};
use std::env::Env;
use std::io;
use std::io::BufReader;
use std::process::ExitCode;
use tour::tour;

const BAD_LINE_STATUS: u8 = 2;

fn main(rt: HostRuntime) -> ExitCode {
    if is_for_tour(&rt) {
        return print_tour(rt);
    }
    answer_lines(rt)
}

/// Returns whether the first argument is `tour`.
fn is_for_tour(rt: &HostRuntime) -> bool {
    let mut word = [0; 4];
    match rt.arg(1, &mut word) {
        Ok(4) => word == *b"tour",
        _ => false,
    }
}

fn print_tour(rt: HostRuntime) -> ExitCode {
    let Ok(page) = tour(rt.alloc()) else {
        return ExitCode::FAILURE;
    };
    match print!(rt; "{page}") {
        Ok(()) => ExitCode::SUCCESS,
        Err(_) => ExitCode::FAILURE,
    }
}

fn answer_lines(rt: HostRuntime) -> ExitCode {
    let Ok(input) = BufReader::new(rt.alloc(), rt.reader()) else {
        return ExitCode::FAILURE;
    };
    let mut reader = Counted::new(input);
    let mut writer = Counted::new(io::writer(&rt));
    match run(rt.alloc(), &mut reader, &mut writer) {
        Ok(Done::End) => ExitCode::SUCCESS,
        Ok(Done::BadLine(_)) => ExitCode::from(BAD_LINE_STATUS),
        Err(_) => ExitCode::FAILURE,
    }
}
