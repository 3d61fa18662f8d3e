//! The job of an input line.

ghost use Rattle.std.specs.Prelude.{◌<◌, ◌≤◌};

use std::alloc::Global;

/// The operations that a line can request.
#[derive(Clone, Copy)]
pub enum Operation {
    And,
    SetBits,
    Pext,
    PextFour,
}

impl Operation {
    fn named(name: &str) -> Option<Operation> {
        match name {
            "and" => Some(Operation::And),
            "set_bits" => Some(Operation::SetBits),
            "pext" => Some(Operation::Pext),
            "pext_four" => Some(Operation::PextFour),
            _ => None,
        }
    }
}

/// The maximum number of rows of a job.
const MOST_ROWS: usize = 67_108_864;

/// The maximum number of bits before the first row.
const MOST_OFFSET: usize = 64;

/// An operation, the number of bits or words, the bit offsets of both bitmaps, and the number of
/// repeats.
#[derive(Clone, Copy)]
pub struct Job {
    pub operation: Operation,
    pub rows: usize,
    pub left: usize,
    pub right: usize,
    pub repeats: u64,
    pub ghost some_rows: { 0 < rows },
    pub ghost few_rows: { rows ≤ 67108864 },
    pub ghost near_left: { left ≤ 64 },
    pub ghost near_right: { right ≤ 64 },
}

impl Job {
    /// Returns the job of a line; none if the line is bad or an allocation fails.
    pub fn parse(alloc: Global, line: &str) -> Option<Job> {
        let words: Vec<&str> = line.split_whitespace().collect(alloc).ok()?;
        if words.len() != 5 {
            return None;
        }
        let operation = Operation::named(words[0])?;
        let rows = words[1].parse::<usize>().ok()?;
        let left = words[2].parse::<usize>().ok()?;
        let right = words[3].parse::<usize>().ok()?;
        let repeats = words[4].parse::<u64>().ok()?;
        if rows == 0 || rows > MOST_ROWS || left > MOST_OFFSET || right > MOST_OFFSET {
            return None;
        }
        Some(Job {
            operation,
            rows,
            left,
            right,
            repeats,
        })
    }
}
