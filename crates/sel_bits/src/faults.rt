//! Error types.
ghost use Rattle.std.specs.Prelude.{◌≡◌, Some};
ghost use Rattle.sel_bits.specs.Faults.{limit_text, error_text};
ghost use Rattle.sel_bits.specs.declared.faults.PolarsError.TheVariants.{OutOfMemory};

use std::alloc::{AllocError, AllocFailed};
use std::fmt;

/// The result type of the kernels.
pub type PolarsResult<T> = Result<T, PolarsError>;

/// A limit on the size of a column.
#[derive(Debug, Clone, Copy, PartialEq, Eq)]
pub enum Limit {
    /// Rows of any column, including children: 4,294,967,295.
    Rows,
    /// The last offset of a binary or string column: the greatest value of its offset type.
    Bytes,
    /// Data buffers of one view column: 4,294,967,295.
    Buffers,
    /// Bytes of one view, or of a scalar that is broadcast to all rows: 4,294,967,295.
    ViewBytes,
}

/// Writes the limit as it follows `size limit` in an error message.
impl fmt::Display for Limit {
    ghost output = { λ limit. Some (limit_text limit) };

    fn fmt<W: fmt::Write>(&self, f: &mut fmt::Formatter<W>) -> fmt::Result {
        match self {
            Limit::Rows => write!(f, "rows"),
            Limit::Bytes => write!(f, "bytes"),
            Limit::Buffers => write!(f, "buffers"),
            Limit::ViewBytes => write!(f, "view bytes"),
        }
    }
}

/// An error of a kernel.
#[derive(Debug, Clone, Copy, PartialEq, Eq)]
pub enum PolarsError {
    /// An allocation failed.
    OutOfMemory,
    /// The result, or an intermediate value, exceeds a limit.
    SizeLimit(Limit),
    /// An index is out of bounds for a row.
    ComputeError,
}

impl fmt::Display for PolarsError {
    ghost output = { λ error. Some (error_text error) };

    fn fmt<W: fmt::Write>(&self, f: &mut fmt::Formatter<W>) -> fmt::Result {
        match self {
            PolarsError::OutOfMemory => write!(f, "out of memory"),
            PolarsError::SizeLimit(limit) => write!(f, "size limit {limit}"),
            PolarsError::ComputeError => write!(f, "get index is out of bounds"),
        }
    }
}

impl From<AllocError> for PolarsError {
    ghost from_gives = { λ _ error. error ≡ OutOfMemory };

    fn from(_fault: AllocError) -> PolarsError {
        PolarsError::OutOfMemory
    }
}

impl<T: Drop> From<AllocFailed<T>> for PolarsError {
    ghost from_gives = { λ _ error. error ≡ OutOfMemory };

    fn from(_fault: AllocFailed<T>) -> PolarsError {
        PolarsError::OutOfMemory
    }
}

/// An error in the construction of a column.
#[derive(Debug, Clone, Copy, PartialEq, Eq)]
pub enum MakeError {
    /// The first rule that the parts break.
    Malformed(Malformed),
    /// The parts break no rule, and an allocation failed.
    OutOfMemory,
}

/// A rule of columns that the parts break.
#[derive(Debug, Clone, Copy, PartialEq, Eq)]
pub enum Malformed {
    /// There is no offset.
    OffsetCount,
    /// An offset is negative.
    OffsetNegative,
    /// An offset is less than the one before.
    OffsetOrder,
    /// There are more than 4,294,967,295 rows.
    TooManyRows,
    /// There are more than 4,294,967,295 data buffers.
    TooManyBuffers,
    /// The list size of a fixed-size list is greater than 4,294,967,295.
    Width,
    /// The last offset is greater than the length of the data or of the child.
    OffsetRange,
    /// The child of a fixed-size list does not have `width * length` rows.
    ChildLength,
    /// A field and its struct have different lengths.
    FieldLength,
    /// The validity and the column have different lengths.
    ValidityLength,
    /// A view refers to bytes that its buffers do not have.
    ViewRange,
    /// The prefix of a view differs from the first four bytes of its value.
    ViewPrefix,
    /// A valid row of a string column is not UTF-8.
    Utf8,
}
