//! The columns with if-then-else kernels by the words of the mask.

ghost use Rattle.std.specs.Prelude.{◌≡◌, ◌≢◌, ◌≤◌, ◌&&◌, List, length, IfOk, IfErr, IsTrue};
ghost use Rattle.std.specs.Option.{option_copied};
ghost use Rattle.sel_bits.specs.Faults.{IsOutOfMemory};
ghost use Rattle.sel_bits.specs.Limits.{max_buffer_bytes};
ghost use Rattle.sel_arrow.specs.Columns.{binview_rows};
ghost use Rattle.sel_arrow.specs.Masked.{hidden, masked};
ghost use Rattle.sel_bits.specs.Validity.{Covers};
ghost use Rattle.sel_arrow.specs.Value.{Value, Null, Bytes};
ghost use Rattle.sel_arrow.specs.Views.{inline_space, is_placed, view_bytes};
ghost use Rattle.sel_ternary.specs.Chosen.{first_row};
ghost use Rattle.sel_ternary.specs.ViewSides.{scalar_buffers};

use crate::if_then_else::IfThenElseKernel;
use crate::if_then_else::by_words::WordKernel;
use crate::if_then_else::lanes::ChooseLanes;
use crate::if_then_else::view_columns::{choose_bytes, choose_bytes_false, choose_bytes_true};
use sel_arrow::array::Array;
use sel_arrow::binview::{BinaryViewArray, bytes_at};
use sel_arrow::boolean::BooleanArray;
use sel_arrow::datatype::ArrowDataType;
use sel_arrow::primitive::{ArrowPrimitive, PrimitiveArray};
use sel_arrow::utf8view::Utf8ViewArray;
use sel_arrow::view::View;
use sel_bits::bitmap::Bitmap;
use sel_bits::faults::PolarsResult;
use std::alloc::Global;

/// Returns the value of a column of one row, which is not null.
macro_rules! only_value {
    ($column:ident) => {{
        let Some(value) = $column.get(0) else {
            unreachable!()
        };
        value
    }};
}

/// Applies the kernel of an array type to two columns, or to their only rows.
macro_rules! apply {
    ($dtype:expr, $alloc:ident, $mask:ident, $if_true:ident, $if_false:ident,
     $true_column:ident, $false_column:ident) => {{
        if $true_column {
            if $false_column {
                return Self::if_then_else($alloc, $mask, $if_true, $if_false);
            }
            let value = only_value!($if_false);
            return Self::if_then_else_broadcast_false($alloc, $mask, $if_true, &value);
        }
        let value = only_value!($if_true);
        if $false_column {
            return Self::if_then_else_broadcast_true($alloc, $mask, &value, $if_false);
        }
        let other = only_value!($if_false);
        Self::if_then_else_broadcast_both($alloc, $dtype, $mask, &value, &other)
    }};
}

/// Returns an array with null rows where the bit of `$keep` is not set.
macro_rules! nulled {
    ($array:ident, $alloc:ident, $keep:ident) => {{
        let validity = narrowed_validity($alloc, $array.validity.as_ref(), $keep)?;
        Ok($array.with_validity(Some(validity)))
    }};
}

#[tactic(auto, using(crate::proofs::Validities::sides))]
impl<T: ArrowPrimitive + ChooseLanes> WordKernel for PrimitiveArray<T> {
    fn choose(
        alloc: Global,
        mask: &Bitmap,
        if_true: &Self,
        if_false: &Self,
        true_column: bool,
        false_column: bool,
    ) -> PolarsResult<Self> {
        apply! { T::column_dtype(), alloc, mask, if_true, if_false, true_column, false_column }
    }

    fn nulled(self, alloc: Global, keep: &Bitmap) -> PolarsResult<Self> {
        nulled!(self, alloc, keep)
    }
}

#[tactic(auto, using(crate::proofs::Validities::sides))]
impl WordKernel for BooleanArray {
    fn choose(
        alloc: Global,
        mask: &Bitmap,
        if_true: &Self,
        if_false: &Self,
        true_column: bool,
        false_column: bool,
    ) -> PolarsResult<Self> {
        apply! { ArrowDataType::Boolean, alloc, mask, if_true, if_false, true_column, false_column }
    }

    fn nulled(self, alloc: Global, keep: &Bitmap) -> PolarsResult<Self> {
        nulled!(self, alloc, keep)
    }
}

/// The data buffers of a result are those of its columns, and those of its rows as scalars.
#[tactic(auto, using(crate::proofs::Validities::sides))]
impl WordKernel for BinaryViewArray {
    fn choose(
        alloc: Global,
        mask: &Bitmap,
        if_true: &Self,
        if_false: &Self,
        true_column: bool,
        false_column: bool,
    ) -> PolarsResult<Self> {
        if true_column {
            if false_column {
                return BinaryViewArray::if_then_else(alloc, mask, if_true, if_false);
            }
            let view = first_view(if_false);
            let space = view.inline_space();
            let bytes = placed_bytes(if_false, view, &space);
            return choose_bytes_false(alloc, mask, if_true, bytes);
        }
        let view = first_view(if_true);
        let space = view.inline_space();
        let bytes = placed_bytes(if_true, view, &space);
        if false_column {
            return choose_bytes_true(alloc, mask, bytes, if_false);
        }
        let other = first_view(if_false);
        let space_of_other = other.inline_space();
        let others = placed_bytes(if_false, other, &space_of_other);
        choose_bytes(alloc, mask, bytes, others)
    }

    fn nulled(self, alloc: Global, keep: &Bitmap) -> PolarsResult<Self> {
        nulled!(self, alloc, keep)
    }
}

#[tactic(auto, using(crate::proofs::WordKernels::word_texts))]
impl WordKernel for Utf8ViewArray {
    fn choose(
        alloc: Global,
        mask: &Bitmap,
        if_true: &Self,
        if_false: &Self,
        true_column: bool,
        false_column: bool,
    ) -> PolarsResult<Self> {
        let (first, second) = (&if_true.bytes, &if_false.bytes);
        let bytes = BinaryViewArray::choose(alloc, mask, first, second, true_column, false_column)?;
        Ok(Utf8ViewArray { bytes })
    }

    fn nulled(self, alloc: Global, keep: &Bitmap) -> PolarsResult<Self> {
        let Utf8ViewArray { bytes } = self;
        let bytes = bytes.nulled(alloc, keep)?;
        Ok(Utf8ViewArray { bytes })
    }
}

// Returns the view of the only row of a column, which is not null.
fn first_view(column: &BinaryViewArray) -> View
    requires one { length (binview_rows column.now) ≡ 1 }
    requires valid { first_row (binview_rows column.now) ≢ Null }
    ensures row { first_row (binview_rows column.now) ≡
        Bytes (view_bytes column.now.buffers result) }
    ensures placed { IsTrue (is_placed column.now.buffers result) }
{
    column.views.as_slice()[0]
}

// Returns the bytes of a view of a column, without a copy. `space` has its inline bytes.
fn placed_bytes<'a>(column: &'a BinaryViewArray, view: View, space: &'a [u8; 12]) -> &'a [u8]
    requires placed { IsTrue (is_placed column.now.buffers view) }
    requires space { space.now ≡ inline_space view }
    ensures bytes { result.now ≡ view_bytes column.now.buffers view }
    ensures held { length (scalar_buffers result.now) ≤ length column.now.buffers }
    ensures few { length (scalar_buffers result.now) ≤ 1 }
    ensures size { length result.now ≤ max_buffer_bytes }
{
    bytes_at(column.buffers.as_slice(), view, space)
}

// Returns the bits of the validity where `keep` is set. A validity of `None` counts as all true.
fn narrowed_validity(
    alloc: Global,
    validity: Option<&Bitmap>,
    keep: &Bitmap,
) -> PolarsResult<Bitmap>
    requires { Covers (option_copied validity) (length keep.now.bits) }
    ensures rows { IfOk result (λ narrowed. (rows : List Value) → hidden narrowed.bits rows ≡
        hidden keep.now.bits (masked (option_copied validity.entry) rows)) }
    ensures len { IfOk result (λ narrowed. length narrowed.bits ≡ length keep.now.bits) }
    ensures refusal { IfErr result IsOutOfMemory }
{
    match validity {
        None => keep.try_clone(),
        Some(bits) => bits.and(alloc, keep),
    }
}
