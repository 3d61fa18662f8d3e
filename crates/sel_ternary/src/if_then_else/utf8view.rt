//! If-then-else for string view columns.

ghost use Rattle.std.specs.Prelude.{◌≡◌, ◌≤◌, ◌++◌, length, max, IfOk, IfErr, string_bytes};
ghost use Rattle.sel_bits.specs.Limits.{max_buffer_bytes};
ghost use Rattle.sel_arrow.specs.Columns.{utf8view_rows};
ghost use Rattle.sel_arrow.specs.DataType.{shape_of};
ghost use Rattle.sel_arrow.specs.Shape.{of_utf8_view};
ghost use Rattle.sel_arrow.specs.Value.{Bytes};
ghost use Rattle.sel_ternary.specs.Choose.{choose, broadcast_both, broadcast_true, broadcast_false};
ghost use Rattle.sel_ternary.specs.Sides.{IsLimitOrMemory, ExceedsNone, column, scalar};
ghost use Rattle.sel_ternary.specs.ViewSides.{utf8view_buffers, exceeded_utf8view, scalar_buffers};

use crate::if_then_else::IfThenElseKernel;
use crate::if_then_else::view_columns::{
    choose_bytes, choose_bytes_false, choose_bytes_true, choose_columns,
};
use sel_arrow::datatype::ArrowDataType;
use sel_arrow::utf8view::Utf8ViewArray;
use sel_arrow::validity::MOST_ROWS;
use sel_bits::bitmap::Bitmap;
use sel_bits::faults::{Limit, PolarsError, PolarsResult};
use std::alloc::Global;

/// If-then-else for string view columns; a scalar is one string.
///
/// The result has the data buffers of the true values followed by those of the false values. A
/// scalar of more than 12 bytes adds one data buffer, after the buffers of a column.
///
/// # Errors
/// `OutOfMemory`; `SizeLimit(Buffers)` for more than 4,294,967,295 data buffers;
/// `SizeLimit(ViewBytes)` for a scalar of more than 4,294,967,295 bytes; `SizeLimit(Rows)` for two
/// scalars and a mask of more than 4,294,967,295 bits.
#[tactic(auto, using(crate::proofs::Placed::texts))]
impl IfThenElseKernel for Utf8ViewArray {
    ghost use Rattle.std.specs.Prelude.{◌≡◌, ⊤};

    type Scalar = String;

    ghost scalar_row = { λ s. Bytes (string_bytes s) };

    ghost fits = { λ _ _. ⊤ };

    ghost is_own = { λ type. type ≡ of_utf8_view };

    ghost exceeded = { λ _ if_true if_false rows limit.
        exceeded_utf8view if_true if_false rows limit };

    fn if_then_else(
        alloc: Global,
        mask: &Bitmap,
        if_true: &Utf8ViewArray,
        if_false: &Utf8ViewArray,
    ) -> PolarsResult<Utf8ViewArray>
        requires true_side { length (utf8view_rows if_true.now) ≡ length mask.now.bits }
        requires false_side { length (utf8view_rows if_false.now) ≡ length mask.now.bits }
        ensures rows { IfOk result (λ chosen. utf8view_rows chosen ≡
            choose mask.now.bits (utf8view_rows if_true.now) (utf8view_rows if_false.now)) }
        ensures buffers { IfOk result (λ chosen. utf8view_buffers chosen ≡
            utf8view_buffers if_true.now ++ utf8view_buffers if_false.now) }
        ensures within { IfOk result (λ _. ExceedsNone
            (exceeded_utf8view (column if_true.now) (column if_false.now)
            (choose mask.now.bits (utf8view_rows if_true.now) (utf8view_rows if_false.now)))) }
        ensures refusal { IfErr result (IsLimitOrMemory
            (exceeded_utf8view (column if_true.now) (column if_false.now)
            (choose mask.now.bits (utf8view_rows if_true.now) (utf8view_rows if_false.now)))) }
    {
        let bytes = choose_columns(alloc, mask, &if_true.bytes, &if_false.bytes)?;
        Ok(Utf8ViewArray { bytes })
    }

    fn if_then_else_broadcast_true(
        alloc: Global,
        mask: &Bitmap,
        if_true: &String,
        if_false: &Utf8ViewArray,
    ) -> PolarsResult<Utf8ViewArray>
        requires { length (utf8view_rows if_false.now) ≡ length mask.now.bits }
        ensures rows { IfOk result (λ chosen. utf8view_rows chosen ≡ broadcast_true mask.now.bits
            (Bytes (string_bytes if_true.now)) (utf8view_rows if_false.now)) }
        ensures buffers { IfOk result (λ chosen. utf8view_buffers chosen ≡
            utf8view_buffers if_false.now ++ scalar_buffers (string_bytes if_true.now)) }
        ensures bytes { IfOk result (λ _. length (string_bytes if_true.now) ≤ max_buffer_bytes) }
        ensures within { IfOk result
            (λ _. ExceedsNone (exceeded_utf8view (scalar if_true.now) (column if_false.now)
            (broadcast_true mask.now.bits (Bytes (string_bytes if_true.now))
            (utf8view_rows if_false.now)))) }
        ensures refusal { IfErr result
            (IsLimitOrMemory (exceeded_utf8view (scalar if_true.now) (column if_false.now)
            (broadcast_true mask.now.bits (Bytes (string_bytes if_true.now))
            (utf8view_rows if_false.now)))) }
    {
        let scalar = if_true.as_str().as_bytes();
        let bytes = choose_bytes_true(alloc, mask, scalar, &if_false.bytes)?;
        Ok(Utf8ViewArray { bytes })
    }

    fn if_then_else_broadcast_false(
        alloc: Global,
        mask: &Bitmap,
        if_true: &Utf8ViewArray,
        if_false: &String,
    ) -> PolarsResult<Utf8ViewArray>
        requires { length (utf8view_rows if_true.now) ≡ length mask.now.bits }
        ensures rows { IfOk result (λ chosen. utf8view_rows chosen ≡
            broadcast_false mask.now.bits (utf8view_rows if_true.now)
            (Bytes (string_bytes if_false.now))) }
        ensures buffers { IfOk result (λ chosen. utf8view_buffers chosen ≡
            utf8view_buffers if_true.now ++ scalar_buffers (string_bytes if_false.now)) }
        ensures bytes { IfOk result
            (λ _. length (string_bytes if_false.now) ≤ max_buffer_bytes) }
        ensures within { IfOk result
            (λ _. ExceedsNone (exceeded_utf8view (column if_true.now) (scalar if_false.now)
            (broadcast_false mask.now.bits (utf8view_rows if_true.now)
            (Bytes (string_bytes if_false.now))))) }
        ensures refusal { IfErr result
            (IsLimitOrMemory (exceeded_utf8view (column if_true.now) (scalar if_false.now)
            (broadcast_false mask.now.bits (utf8view_rows if_true.now)
            (Bytes (string_bytes if_false.now))))) }
    {
        let scalar = if_false.as_str().as_bytes();
        let bytes = choose_bytes_false(alloc, mask, &if_true.bytes, scalar)?;
        Ok(Utf8ViewArray { bytes })
    }

    fn if_then_else_broadcast_both(
        alloc: Global,
        dtype: ArrowDataType,
        mask: &Bitmap,
        if_true: &String,
        if_false: &String,
    ) -> PolarsResult<Utf8ViewArray>
        requires { shape_of dtype ≡ of_utf8_view }
        ensures rows { IfOk result (λ chosen. utf8view_rows chosen ≡ broadcast_both mask.now.bits
            (Bytes (string_bytes if_true.now)) (Bytes (string_bytes if_false.now))) }
        ensures dtype { IfOk result (λ _. shape_of dtype ≡ of_utf8_view) }
        ensures buffers { IfOk result (λ chosen. utf8view_buffers chosen ≡ scalar_buffers
            (string_bytes if_true.now) ++ scalar_buffers (string_bytes if_false.now)) }
        ensures bytes { IfOk result (λ _. max (length (string_bytes if_true.now))
            (length (string_bytes if_false.now)) ≤ max_buffer_bytes) }
        ensures within { IfOk result
            (λ _. ExceedsNone (exceeded_utf8view (scalar if_true.now) (scalar if_false.now)
            (broadcast_both mask.now.bits (Bytes (string_bytes if_true.now))
            (Bytes (string_bytes if_false.now))))) }
        ensures refusal { IfErr result
            (IsLimitOrMemory (exceeded_utf8view (scalar if_true.now) (scalar if_false.now)
            (broadcast_both mask.now.bits (Bytes (string_bytes if_true.now))
            (Bytes (string_bytes if_false.now))))) }
    {
        drop(dtype);
        if mask.len() > MOST_ROWS {
            return Err(PolarsError::SizeLimit(Limit::Rows));
        }
        let first = if_true.as_str().as_bytes();
        let second = if_false.as_str().as_bytes();
        let bytes = choose_bytes(alloc, mask, first, second)?;
        Ok(Utf8ViewArray { bytes })
    }
}
