//! Errors of the parser.

ghost use Rattle.std.specs.Prelude.{◌≡◌, ◌≤◌, Some, length};
ghost use Rattle.sel_text.specs.TextErrors.{parse_error_text, kernel_fault, make_fault, IsLimitOrMemoryError, IsOffsetWithin};
ghost use Rattle.sel_text.specs.Steps.{IsLimitOrMemoryFault};
ghost use Rattle.sel_text.specs.declared.text_error.Fault.TheVariants.{OutOfMemory};

use crate::spelling::place_in;
use sel_bits::faults::{MakeError, PolarsError};
use std::alloc::{AllocError, AllocFailed};
use std::fmt;

/// An error of `parse_column` or `parse_dtype`. A position is the index of a byte, counted from 0,
/// or the length of the text.
#[derive(Debug, Clone, Copy, PartialEq, Eq)]
pub enum TextError {
    /// The text is not that of rows, or of a type. The position is that of the first byte with
    /// which no such text goes on, or the length of the text if it ends too soon.
    Syntax { at: usize },
    /// The value at this position does not fit the type.
    Type { at: usize },
    /// The column would exceed a size limit, or the type is nested too deeply or has a list size
    /// that does not fit in 64 bits.
    Limit,
    /// An allocation failed.
    OutOfMemory,
}

/// Writes the error, with its position if it has one.
impl fmt::Display for TextError {
    ghost output = { λ error. Some (parse_error_text error) };

    fn fmt<W: fmt::Write>(&self, f: &mut fmt::Formatter<W>) -> fmt::Result {
        match self {
            TextError::Syntax { at } => write!(f, "syntax at byte {at}"),
            TextError::Type { at } => write!(f, "type at byte {at}"),
            TextError::Limit => write!(f, "size limit"),
            TextError::OutOfMemory => write!(f, "out of memory"),
        }
    }
}

/// An error while parsing text in its canonical spelling. A position is the number of bytes left.
#[derive(Clone, Copy)]
pub(crate) enum Fault {
    Syntax(usize),
    Type(usize),
    Limit,
    OutOfMemory,
}

impl Fault {
    /// Converts the error to one of `text`, whose canonical spelling has `count` bytes.
    pub(crate) fn placed(self, text: &str, count: usize) -> TextError
        ensures place { IsOffsetWithin (length text.now) result }
        ensures short { IsLimitOrMemoryFault self → IsLimitOrMemoryError result }
        ensures limit { result ≡ TextError.Limit → self ≡ Fault.Limit }
    {
        match self {
            Fault::Syntax(left) => TextError::Syntax {
                at: place_in(text, count.saturating_sub(left)),
            },
            Fault::Type(left) => TextError::Type {
                at: place_in(text, count.saturating_sub(left)),
            },
            Fault::Limit => TextError::Limit,
            Fault::OutOfMemory => TextError::OutOfMemory,
        }
    }
}

impl From<AllocError> for Fault {
    ghost from_gives = { λ _ fault. fault ≡ OutOfMemory };

    fn from(_fault: AllocError) -> Fault {
        Fault::OutOfMemory
    }
}

impl<T: Drop> From<AllocFailed<T>> for Fault {
    ghost from_gives = { λ _ fault. fault ≡ OutOfMemory };

    fn from(_fault: AllocFailed<T>) -> Fault {
        Fault::OutOfMemory
    }
}

impl From<PolarsError> for Fault {
    ghost from_gives = { λ error fault. fault ≡ kernel_fault error };

    fn from(fault: PolarsError) -> Fault {
        match fault {
            PolarsError::OutOfMemory => Fault::OutOfMemory,
            _ => Fault::Limit,
        }
    }
}

impl From<MakeError> for Fault {
    ghost from_gives = { λ error fault. fault ≡ make_fault error };

    fn from(fault: MakeError) -> Fault {
        match fault {
            MakeError::OutOfMemory => Fault::OutOfMemory,
            MakeError::Malformed(_) => Fault::Limit,
        }
    }
}
