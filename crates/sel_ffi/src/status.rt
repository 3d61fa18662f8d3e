//! Status codes, and storing a column in a handle.

ghost use Rattle.std.specs.Prelude.{◌≡◌, ◌≤◌};
ghost use Rattle.sel_arrow.specs.Depth.{depth};
ghost use Rattle.sel_arrow.specs.Rows.{type_of};
ghost use Rattle.sel_ffi.specs.Status.{out_of_memory, error_status, make_status, IsOwnError, Makes, ReportsLimits};

use crate::handle::Handle;
use crate::shared_column::SharedColumn;
use sel_arrow::array_ref::ArrayRef;
use sel_bits::faults::{Limit, MakeError, Malformed, PolarsError};
use std::alloc::Global;

/// Success.
pub const OK: u32 = 0;

/// Out of memory: an allocation failed.
pub const OUT_OF_MEMORY: u32 = 1;

/// A handle that has to have a column is empty.
pub const NO_COLUMN: u32 = 2;

/// The column has a type that the call does not support.
pub const UNSUPPORTED_TYPE: u32 = 3;

/// The columns do not have the same type.
pub const TYPE_MISMATCH: u32 = 4;

/// Lengths do not match.
pub const LENGTH_MISMATCH: u32 = 5;

/// An index, a key or a row reference is out of bounds.
pub const INDEX_OUT_OF_BOUNDS: u32 = 6;

/// A list that is not null has no element at the index.
pub const LIST_INDEX_OUT_OF_BOUNDS: u32 = 7;

/// The result would have more than 4,294,967,295 rows at some depth.
pub const ROW_LIMIT: u32 = 8;

/// A binary column of the result would exceed the range of its 64-bit offsets.
pub const OFFSET_LIMIT: u32 = 9;

/// A view column of the result would have more than 4,294,967,295 data buffers.
pub const BUFFER_LIMIT: u32 = 10;

/// A view or a broadcast scalar would have more than 4,294,967,295 bytes.
pub const VIEW_LIMIT: u32 = 11;

/// The column would have more than 128 levels.
pub const TOO_DEEP: u32 = 12;

/// There are no offsets.
pub const NO_OFFSETS: u32 = 16;

/// An offset is negative.
pub const NEGATIVE_OFFSET: u32 = 17;

/// An offset is less than the previous one.
pub const DECREASING_OFFSET: u32 = 18;

/// There are more than 4,294,967,295 rows.
pub const TOO_MANY_ROWS: u32 = 19;

/// There are more than 4,294,967,295 data buffers.
pub const TOO_MANY_BUFFERS: u32 = 20;

/// The list size of a fixed-size list exceeds 4,294,967,295.
pub const LIST_SIZE: u32 = 21;

/// The last offset exceeds the length of the values or the child.
pub const OFFSET_RANGE: u32 = 22;

/// The child of fixed-size lists does not have length times list size rows.
pub const CHILD_LENGTH: u32 = 23;

/// A field does not have as many rows as its struct.
pub const FIELD_LENGTH: u32 = 24;

/// The validity has fewer bits than there are rows.
pub const VALIDITY_LENGTH: u32 = 25;

/// A view points outside of its data buffer, or to a data buffer that does not exist.
pub const VIEW_RANGE: u32 = 26;

/// The prefix of a view differs from the first four bytes that the view points to.
pub const VIEW_PREFIX: u32 = 27;

/// A valid row of a string column is not UTF-8.
pub const INVALID_UTF8: u32 = 28;

/// Syntax error in the type.
pub const TYPE_SYNTAX: u32 = 32;

/// Syntax error in the row text.
pub const ROW_SYNTAX: u32 = 33;

/// A value in the row text does not fit the type.
pub const ROW_TYPE_MISMATCH: u32 = 34;

/// The type or the rows exceed a size limit, or the type is nested more than 64 levels deep.
pub const TEXT_LIMIT: u32 = 35;

/// Returns the status code of a kernel's error.
pub fn status_of(error: PolarsError) -> u32
    ensures number { result ≡ error_status error }
    ensures own { IsOwnError result }
{
    match error {
        PolarsError::OutOfMemory => OUT_OF_MEMORY,
        PolarsError::ComputeError => LIST_INDEX_OUT_OF_BOUNDS,
        PolarsError::SizeLimit(limit) => match limit {
            Limit::Rows => ROW_LIMIT,
            Limit::Bytes => OFFSET_LIMIT,
            Limit::Buffers => BUFFER_LIMIT,
            Limit::ViewBytes => VIEW_LIMIT,
        },
    }
}

/// Returns the status code of an error in building a column.
pub fn status_of_maker(error: MakeError) -> u32
    ensures number { result ≡ make_status error }
    ensures own { IsOwnError result }
    ensures limits { ReportsLimits result (λ _. ⊥) }
{
    match error {
        MakeError::OutOfMemory => OUT_OF_MEMORY,
        MakeError::Malformed(rule) => match rule {
            Malformed::OffsetCount => NO_OFFSETS,
            Malformed::OffsetNegative => NEGATIVE_OFFSET,
            Malformed::OffsetOrder => DECREASING_OFFSET,
            Malformed::TooManyRows => TOO_MANY_ROWS,
            Malformed::TooManyBuffers => TOO_MANY_BUFFERS,
            Malformed::Width => LIST_SIZE,
            Malformed::OffsetRange => OFFSET_RANGE,
            Malformed::ChildLength => CHILD_LENGTH,
            Malformed::FieldLength => FIELD_LENGTH,
            Malformed::ValidityLength => VALIDITY_LENGTH,
            Malformed::ViewRange => VIEW_RANGE,
            Malformed::ViewPrefix => VIEW_PREFIX,
            Malformed::Utf8 => INVALID_UTF8,
        },
    }
}

/// Stores the column in `out`, and frees the one that `out` had.
///
/// # Requires
/// The column is nested at most 128 levels deep; check with [`is_within`](crate::depth::is_within).
///
/// Errors: `OUT_OF_MEMORY`; then `out` is unchanged and `column` is freed.
pub fn put(alloc: Global, column: ArrayRef, out: &mut Handle) -> u32
    requires { depth (type_of column.column) ≤ 128 }
    ensures column { Makes result out.old.tree out.new.tree (λ made. made ≡ column) }
    ensures status { result ≤ out_of_memory }
{
    match SharedColumn::new(alloc, column) {
        Ok(shared) => put_shared(alloc, shared, out),
        Err(_) => OUT_OF_MEMORY,
    }
}

/// Stores the column in `out`, which shares it with its other owners, and frees the one that `out`
/// had.
///
/// Errors: `OUT_OF_MEMORY`; then `out` is unchanged.
pub fn put_shared(alloc: Global, shared: SharedColumn, out: &mut Handle) -> u32
    ensures column { Makes result out.old.tree out.new.tree (λ made. made ≡ shared) }
    ensures status { result ≤ out_of_memory }
{
    match Box::new(alloc, shared) {
        Ok(shared) => {
            *out = Handle::of(shared);
            OK
        }
        Err(failed) => {
            drop(failed.value);
            OUT_OF_MEMORY
        }
    }
}

/// Stores in `out` a second owner of `column`, and frees the column that `out` had. Copies nothing.
///
/// Errors: `OUT_OF_MEMORY`; then `out` is unchanged.
pub fn put_again(alloc: Global, column: &SharedColumn, out: &mut Handle) -> u32
    ensures column { Makes result out.old.tree out.new.tree (λ made. made ≡ column.now) }
    ensures status { result ≤ out_of_memory }
{
    match column.try_clone() {
        Ok(shared) => put_shared(alloc, shared, out),
        Err(_) => OUT_OF_MEMORY,
    }
}
