//! The lines of the output, and the error of a step.

use sel_arrow::array::Array;
use sel_arrow::array_ref::ArrayRef;
use sel_bits::faults::{MakeError, PolarsError};
use sel_text::print::print_rows;
use std::alloc::{AllocError, AllocFailed, Global};

/// The error of a step.
#[derive(Clone, Copy)]
pub enum Stop {
    /// A kernel returned an error.
    Refused(PolarsError),
    /// A column could not be built from its parts.
    Broken(MakeError),
    /// A precondition does not hold.
    Unmet,
}

impl From<PolarsError> for Stop {
    ghost from_gives = { λ _ _. Unit };

    fn from(fault: PolarsError) -> Stop {
        Stop::Refused(fault)
    }
}

impl From<MakeError> for Stop {
    ghost from_gives = { λ _ _. Unit };

    fn from(fault: MakeError) -> Stop {
        Stop::Broken(fault)
    }
}

impl From<AllocError> for Stop {
    ghost from_gives = { λ _ _. Unit };

    fn from(_fault: AllocError) -> Stop {
        Stop::Refused(PolarsError::OutOfMemory)
    }
}

impl<T: Drop> From<AllocFailed<T>> for Stop {
    ghost from_gives = { λ _ _. Unit };

    fn from(_fault: AllocFailed<T>) -> Stop {
        Stop::Refused(PolarsError::OutOfMemory)
    }
}

/// Appends the line `name: text`.
pub fn line(page: &mut String, name: &str, text: &str) -> Result<(), Stop> {
    Ok(write!(page, "{name}: {text}\n")?)
}

/// Appends a line with the rows of a column.
pub fn rows(alloc: Global, page: &mut String, name: &str, column: &ArrayRef) -> Result<(), Stop> {
    let text = print_rows(alloc, column.as_column())?;
    line(page, name, &text)
}

/// Appends a line with the rows of a result, and drops it.
pub fn show<A: Array>(
    alloc: Global,
    page: &mut String,
    name: &str,
    answer: Result<A, Stop>,
) -> Result<(), Stop> {
    let column = answer?.into_ref();
    let shown = rows(alloc, page, name, &column);
    drop(column);
    shown
}
