//! If-then-else for binary view columns.

ghost use Rattle.std.specs.Prelude.{◌≡◌, ◌≤◌, ◌++◌, length, max, IfOk, IfErr};
ghost use Rattle.std.specs.Vec.{vec_items};
ghost use Rattle.sel_bits.specs.Limits.{max_buffer_bytes};
ghost use Rattle.sel_arrow.specs.Columns.{binview_rows};
ghost use Rattle.sel_arrow.specs.DataType.{shape_of};
ghost use Rattle.sel_arrow.specs.Shape.{of_binary_view};
ghost use Rattle.sel_arrow.specs.Value.{Bytes};
ghost use Rattle.sel_ternary.specs.Choose.{choose, broadcast_both, broadcast_true, broadcast_false};
ghost use Rattle.sel_ternary.specs.Sides.{IsLimitOrMemory, ExceedsNone, column, scalar};
ghost use Rattle.sel_ternary.specs.ViewSides.{binview_buffers, exceeded_binview, scalar_buffers};

use crate::if_then_else::IfThenElseKernel;
use crate::if_then_else::view_columns::{
    choose_bytes, choose_bytes_false, choose_bytes_true, choose_columns,
};
use sel_arrow::binview::BinaryViewArray;
use sel_arrow::datatype::ArrowDataType;
use sel_arrow::validity::MOST_ROWS;
use sel_bits::bitmap::Bitmap;
use sel_bits::faults::{Limit, PolarsError, PolarsResult};
use std::alloc::Global;

/// If-then-else for binary view columns; a scalar is the bytes of one value.
///
/// The result has the data buffers of the true values followed by those of the false values. A
/// scalar of more than 12 bytes adds one data buffer, after the buffers of a column.
///
/// # Errors
/// `OutOfMemory`; `SizeLimit(Buffers)` for more than 4,294,967,295 data buffers;
/// `SizeLimit(ViewBytes)` for a scalar of more than 4,294,967,295 bytes; `SizeLimit(Rows)` for two
/// scalars and a mask of more than 4,294,967,295 bits.
#[tactic(auto, using(crate::proofs::Validities::sides))]
impl IfThenElseKernel for BinaryViewArray {
    ghost use Rattle.std.specs.Prelude.{◌≡◌, ⊤};

    type Scalar = Vec<u8>;

    ghost scalar_row = { λ s. Bytes (vec_items s) };

    ghost fits = { λ _ _. ⊤ };

    ghost is_own = { λ type. type ≡ of_binary_view };

    ghost exceeded = { λ _ if_true if_false rows limit.
        exceeded_binview if_true if_false rows limit };

    fn if_then_else(
        alloc: Global,
        mask: &Bitmap,
        if_true: &BinaryViewArray,
        if_false: &BinaryViewArray,
    ) -> PolarsResult<BinaryViewArray>
        requires true_side { length (binview_rows if_true.now) ≡ length mask.now.bits }
        requires false_side { length (binview_rows if_false.now) ≡ length mask.now.bits }
        ensures rows { IfOk result (λ chosen. binview_rows chosen ≡
            choose mask.now.bits (binview_rows if_true.now) (binview_rows if_false.now)) }
        ensures buffers { IfOk result (λ chosen. binview_buffers chosen ≡
            binview_buffers if_true.now ++ binview_buffers if_false.now) }
        ensures within { IfOk result (λ _. ExceedsNone
            (exceeded_binview (column if_true.now) (column if_false.now)
            (choose mask.now.bits (binview_rows if_true.now) (binview_rows if_false.now)))) }
        ensures refusal { IfErr result (IsLimitOrMemory
            (exceeded_binview (column if_true.now) (column if_false.now)
            (choose mask.now.bits (binview_rows if_true.now) (binview_rows if_false.now)))) }
    {
        choose_columns(alloc, mask, if_true, if_false)
    }

    fn if_then_else_broadcast_true(
        alloc: Global,
        mask: &Bitmap,
        if_true: &Vec<u8>,
        if_false: &BinaryViewArray,
    ) -> PolarsResult<BinaryViewArray>
        requires { length (binview_rows if_false.now) ≡ length mask.now.bits }
        ensures rows { IfOk result (λ chosen. binview_rows chosen ≡ broadcast_true mask.now.bits
            (Bytes (vec_items if_true.now)) (binview_rows if_false.now)) }
        ensures buffers { IfOk result (λ chosen. binview_buffers chosen ≡
            binview_buffers if_false.now ++ scalar_buffers (vec_items if_true.now)) }
        ensures bytes { IfOk result (λ _. length (vec_items if_true.now) ≤ max_buffer_bytes) }
        ensures within { IfOk result
            (λ _. ExceedsNone (exceeded_binview (scalar if_true.now) (column if_false.now)
            (broadcast_true mask.now.bits (Bytes (vec_items if_true.now))
            (binview_rows if_false.now)))) }
        ensures refusal { IfErr result
            (IsLimitOrMemory (exceeded_binview (scalar if_true.now) (column if_false.now)
            (broadcast_true mask.now.bits (Bytes (vec_items if_true.now))
            (binview_rows if_false.now)))) }
    {
        choose_bytes_true(alloc, mask, if_true.as_slice(), if_false)
    }

    fn if_then_else_broadcast_false(
        alloc: Global,
        mask: &Bitmap,
        if_true: &BinaryViewArray,
        if_false: &Vec<u8>,
    ) -> PolarsResult<BinaryViewArray>
        requires { length (binview_rows if_true.now) ≡ length mask.now.bits }
        ensures rows { IfOk result (λ chosen. binview_rows chosen ≡ broadcast_false mask.now.bits
            (binview_rows if_true.now) (Bytes (vec_items if_false.now))) }
        ensures buffers { IfOk result (λ chosen. binview_buffers chosen ≡
            binview_buffers if_true.now ++ scalar_buffers (vec_items if_false.now)) }
        ensures bytes { IfOk result (λ _. length (vec_items if_false.now) ≤ max_buffer_bytes) }
        ensures within { IfOk result
            (λ _. ExceedsNone (exceeded_binview (column if_true.now) (scalar if_false.now)
            (broadcast_false mask.now.bits (binview_rows if_true.now)
            (Bytes (vec_items if_false.now))))) }
        ensures refusal { IfErr result
            (IsLimitOrMemory (exceeded_binview (column if_true.now) (scalar if_false.now)
            (broadcast_false mask.now.bits (binview_rows if_true.now)
            (Bytes (vec_items if_false.now))))) }
    {
        choose_bytes_false(alloc, mask, if_true, if_false.as_slice())
    }

    fn if_then_else_broadcast_both(
        alloc: Global,
        dtype: ArrowDataType,
        mask: &Bitmap,
        if_true: &Vec<u8>,
        if_false: &Vec<u8>,
    ) -> PolarsResult<BinaryViewArray>
        requires { shape_of dtype ≡ of_binary_view }
        ensures rows { IfOk result (λ chosen. binview_rows chosen ≡ broadcast_both mask.now.bits
            (Bytes (vec_items if_true.now)) (Bytes (vec_items if_false.now))) }
        ensures dtype { IfOk result (λ _. shape_of dtype ≡ of_binary_view) }
        ensures buffers { IfOk result (λ chosen. binview_buffers chosen ≡
            scalar_buffers (vec_items if_true.now) ++ scalar_buffers (vec_items if_false.now)) }
        ensures bytes { IfOk result (λ _. max (length (vec_items if_true.now))
            (length (vec_items if_false.now)) ≤ max_buffer_bytes) }
        ensures within { IfOk result
            (λ _. ExceedsNone (exceeded_binview (scalar if_true.now) (scalar if_false.now)
            (broadcast_both mask.now.bits (Bytes (vec_items if_true.now))
            (Bytes (vec_items if_false.now))))) }
        ensures refusal { IfErr result
            (IsLimitOrMemory (exceeded_binview (scalar if_true.now) (scalar if_false.now)
            (broadcast_both mask.now.bits (Bytes (vec_items if_true.now))
            (Bytes (vec_items if_false.now))))) }
    {
        drop(dtype);
        if mask.len() > MOST_ROWS {
            return Err(PolarsError::SizeLimit(Limit::Rows));
        }
        choose_bytes(alloc, mask, if_true.as_slice(), if_false.as_slice())
    }
}
