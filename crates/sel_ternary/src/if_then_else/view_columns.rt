//! If-then-else for view columns and byte scalars, with the data buffers of both inputs.

ghost use Rattle.std.specs.Prelude.{◌≡◌, ◌≤◌, ◌+◌, ◌++◌, length, map, max, IfOk, IfErr, IsTrue};
ghost use Rattle.sel_bits.specs.Faults.{IsOutOfMemory};
ghost use Rattle.sel_bits.specs.Limits.{max_buffer_bytes, max_buffers, max_rows};
ghost use Rattle.sel_arrow.specs.Columns.{binview_rows};
ghost use Rattle.sel_arrow.specs.Value.{Bytes};
ghost use Rattle.sel_ternary.specs.Choose.{choose, broadcast_both, broadcast_true, broadcast_false};
ghost use Rattle.sel_ternary.specs.Sides.{IsLimitOrMemory, ExceedsNone};
ghost use Rattle.sel_ternary.specs.ViewSides.{scalar_buffers, ExceedsViews};

use crate::if_then_else::by_lanes::{
    choose_column_or_scalar, choose_scalar_or_column, choose_scalars,
};
use crate::if_then_else::validity::if_then_else_validity;
use crate::if_then_else::view::choose_views;
use sel_arrow::binview::{BinaryViewArray, MOST_BUFFERS};
use sel_arrow::view::{INLINE_BYTES, View};
use sel_bits::bitmap::Bitmap;
use sel_bits::buffer::Buffer;
use sel_bits::faults::{Limit, PolarsError, PolarsResult};
use sel_gather::view::push_buffers;
use std::alloc::Global;

/// The maximum number of bytes of a view.
const MOST_VIEW_BYTES: usize = 4_294_967_295;

/// Returns if-then-else of two columns, or `OutOfMemory`, or `SizeLimit` for data buffers.
#[tactic(auto, using(crate::proofs::JoinedViews::joined_rows))]
pub(crate) fn choose_columns(
    alloc: Global,
    mask: &Bitmap,
    if_true: &BinaryViewArray,
    if_false: &BinaryViewArray,
) -> PolarsResult<BinaryViewArray>
    requires true_side { length (binview_rows if_true.now) ≡ length mask.now.bits }
    requires false_side { length (binview_rows if_false.now) ≡ length mask.now.bits }
    ensures rows { IfOk result (λ chosen. binview_rows chosen ≡
        choose mask.now.bits (binview_rows if_true.now) (binview_rows if_false.now)) }
    ensures buffers { IfOk result (λ chosen. chosen.buffers ≡
        if_true.now.buffers ++ if_false.now.buffers) }
    ensures within { IfOk result (λ _. ExceedsNone
        (ExceedsViews (length if_true.now.buffers + length if_false.now.buffers) 0)) }
    ensures refusal { IfErr result (IsLimitOrMemory
        (ExceedsViews (length if_true.now.buffers + length if_false.now.buffers) 0)) }
{
    let before = if_true.buffers.len();
    check_limits(before + if_false.buffers.len(), 0)?;
    let validity = if_then_else_validity(
        alloc,
        mask,
        if_true.validity.as_ref(),
        if_false.validity.as_ref(),
    )?;
    let (trues, falses) = (if_true.views.as_slice(), if_false.views.as_slice());
    let views = choose_views(alloc, mask, trues, falses, before as u32)?;
    let buffers = joined_buffers(
        alloc,
        if_true.buffers.as_slice(),
        if_false.buffers.as_slice(),
    )?;
    Ok(BinaryViewArray {
        views,
        buffers,
        validity,
    })
}

/// Returns if-then-else of a byte scalar and a column, or `OutOfMemory` or `SizeLimit`.
#[tactic(auto, using(crate::proofs::JoinedViews::joined_rows))]
pub(crate) fn choose_bytes_true(
    alloc: Global,
    mask: &Bitmap,
    if_true: &[u8],
    if_false: &BinaryViewArray,
) -> PolarsResult<BinaryViewArray>
    requires { length (binview_rows if_false.now) ≡ length mask.now.bits }
    ensures rows { IfOk result (λ chosen. binview_rows chosen ≡
        broadcast_true mask.now.bits (Bytes if_true.now) (binview_rows if_false.now)) }
    ensures buffers { IfOk result (λ chosen. chosen.buffers ≡
        if_false.now.buffers ++ scalar_buffers if_true.now) }
    ensures bytes { IfOk result (λ _. length if_true.now ≤ max_buffer_bytes) }
    ensures within { IfOk result (λ _. ExceedsNone (ExceedsViews
        (length (scalar_buffers if_true.now) + length if_false.now.buffers) (length if_true.now))) }
    ensures refusal { IfErr result (IsLimitOrMemory (ExceedsViews
        (length (scalar_buffers if_true.now) + length if_false.now.buffers) (length if_true.now))) }
{
    let before = if_false.buffers.len();
    check_limits(count_of_scalar(if_true) + before, if_true.len())?;
    let validity = if_then_else_validity(alloc, mask, None, if_false.validity.as_ref())?;
    let view = View::new_from_bytes(if_true, before as u32, 0);
    let views = choose_scalar_or_column(alloc, mask, view, if_false.views.as_slice())?;
    let buffers = buffers_and_scalar(alloc, if_false.buffers.as_slice(), if_true)?;
    Ok(BinaryViewArray {
        views,
        buffers,
        validity,
    })
}

/// Returns if-then-else of a column and a byte scalar, or `OutOfMemory` or `SizeLimit`.
#[tactic(auto, using(crate::proofs::JoinedViews::joined_rows))]
pub(crate) fn choose_bytes_false(
    alloc: Global,
    mask: &Bitmap,
    if_true: &BinaryViewArray,
    if_false: &[u8],
) -> PolarsResult<BinaryViewArray>
    requires { length (binview_rows if_true.now) ≡ length mask.now.bits }
    ensures rows { IfOk result (λ chosen. binview_rows chosen ≡
        broadcast_false mask.now.bits (binview_rows if_true.now) (Bytes if_false.now)) }
    ensures buffers { IfOk result (λ chosen. chosen.buffers ≡
        if_true.now.buffers ++ scalar_buffers if_false.now) }
    ensures bytes { IfOk result (λ _. length if_false.now ≤ max_buffer_bytes) }
    ensures within { IfOk result
        (λ _. ExceedsNone
        (ExceedsViews (length if_true.now.buffers + length (scalar_buffers if_false.now))
        (length if_false.now))) }
    ensures refusal { IfErr result
        (IsLimitOrMemory (ExceedsViews (length if_true.now.buffers + length
        (scalar_buffers if_false.now)) (length if_false.now))) }
{
    let before = if_true.buffers.len();
    check_limits(before + count_of_scalar(if_false), if_false.len())?;
    let validity = if_then_else_validity(alloc, mask, if_true.validity.as_ref(), None)?;
    let view = View::new_from_bytes(if_false, before as u32, 0);
    let views = choose_column_or_scalar(alloc, mask, if_true.views.as_slice(), view)?;
    let buffers = buffers_and_scalar(alloc, if_true.buffers.as_slice(), if_false)?;
    Ok(BinaryViewArray {
        views,
        buffers,
        validity,
    })
}

/// Returns if-then-else of two byte scalars, or `OutOfMemory` or `SizeLimit`.
#[tactic(auto, using(crate::proofs::JoinedViews::two_scalars))]
pub(crate) fn choose_bytes(
    alloc: Global,
    mask: &Bitmap,
    if_true: &[u8],
    if_false: &[u8],
) -> PolarsResult<BinaryViewArray>
    requires { length mask.now.bits ≤ max_rows }
    ensures rows { IfOk result (λ chosen. binview_rows chosen ≡
        broadcast_both mask.now.bits (Bytes if_true.now) (Bytes if_false.now)) }
    ensures buffers { IfOk result (λ chosen. chosen.buffers ≡
        scalar_buffers if_true.now ++ scalar_buffers if_false.now) }
    ensures bytes { IfOk result (λ _. max (length if_true.now) (length if_false.now) ≤
        max_buffer_bytes) }
    ensures within { IfOk result (λ _. ExceedsNone
        (ExceedsViews (length (scalar_buffers if_true.now) + length (scalar_buffers if_false.now))
        (max (length if_true.now) (length if_false.now)))) }
    ensures refusal { IfErr result (IsLimitOrMemory
        (ExceedsViews (length (scalar_buffers if_true.now) + length (scalar_buffers if_false.now))
        (max (length if_true.now) (length if_false.now)))) }
{
    let before = count_of_scalar(if_true);
    check_limits(
        before + count_of_scalar(if_false),
        if_true.len().max(if_false.len()),
    )?;
    let first = View::new_from_bytes(if_true, 0, 0);
    let second = View::new_from_bytes(if_false, before as u32, 0);
    let views = choose_scalars(alloc, mask, first, second)?;
    let trues = buffers_of_scalar(alloc, if_true)?;
    let falses = buffers_of_scalar(alloc, if_false)?;
    let buffers = joined_buffers(alloc, &trues, &falses)?;
    Ok(BinaryViewArray {
        views,
        buffers,
        validity: None,
    })
}

/// Returns `SizeLimit` if there are too many data buffers, or the scalar has too many bytes.
fn check_limits(buffers: usize, bytes: usize) -> PolarsResult<()>
    ensures buffers { IfOk result (λ _. buffers ≤ max_buffers) }
    ensures bytes { IfOk result (λ _. bytes ≤ max_buffer_bytes) }
    ensures within { IfOk result (λ _. ExceedsNone (ExceedsViews buffers bytes)) }
    ensures refusal { IfErr result (IsLimitOrMemory (ExceedsViews buffers bytes)) }
{
    if buffers > MOST_BUFFERS {
        return Err(PolarsError::SizeLimit(Limit::Buffers));
    }
    if bytes > MOST_VIEW_BYTES {
        return Err(PolarsError::SizeLimit(Limit::ViewBytes));
    }
    Ok(())
}

/// Returns the number of data buffers of a scalar.
fn count_of_scalar(bytes: &[u8]) -> usize
    ensures count { result ≡ length (scalar_buffers bytes.now) }
    ensures few { result ≤ 1 }
{
    if bytes.len() <= INLINE_BYTES as usize {
        0
    } else {
        1
    }
}

/// Returns the data buffers of a scalar, or `OutOfMemory`.
fn buffers_of_scalar(alloc: Global, bytes: &[u8]) -> PolarsResult<Vec<Buffer<u8>>>
    ensures buffers { IfOk result (λ buffers. buffers.items ≡ scalar_buffers bytes.now) }
    ensures refusal { IfErr result IsOutOfMemory }
{
    let mut buffers = Vec::new(alloc);
    if bytes.len() <= INLINE_BYTES as usize {
        return Ok(buffers);
    }
    buffers.push(Buffer::from_vec(Vec::from_slice(alloc, bytes)?)?)?;
    Ok(buffers)
}

/// Returns the data buffers of a column, followed by those of a scalar, or `OutOfMemory`.
fn buffers_and_scalar(
    alloc: Global,
    first: &[Buffer<u8>],
    bytes: &[u8],
) -> PolarsResult<Buffer<Buffer<u8>>>
    requires { length first.now + length (scalar_buffers bytes.now) ≤ max_buffers }
    ensures buffers { IfOk result (λ joined. joined ≡ first.now ++ scalar_buffers bytes.now) }
    ensures refusal { IfErr result IsOutOfMemory }
{
    let second = buffers_of_scalar(alloc, bytes)?;
    joined_buffers(alloc, first, &second)
}

/// Returns the data buffers of both inputs, concatenated, or `OutOfMemory`.
fn joined_buffers(
    alloc: Global,
    first: &[Buffer<u8>],
    second: &[Buffer<u8>],
) -> PolarsResult<Buffer<Buffer<u8>>>
    requires { length first.now + length second.now ≤ max_buffers }
    ensures buffers { IfOk result (λ joined. joined ≡ first.now ++ second.now) }
    ensures refusal { IfErr result IsOutOfMemory }
{
    let mut joined = Vec::with_capacity(alloc, first.len() + second.len())?;
    push_buffers(&mut joined, first)?;
    push_buffers(&mut joined, second)?;
    Buffer::from_vec(joined)
}
