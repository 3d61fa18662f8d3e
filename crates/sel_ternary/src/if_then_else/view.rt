//! If-then-else for views: blocks of up to 64 by the bits of a word, and slices of any length.

ghost use Rattle.std.specs.Prelude.{◌≡◌, ◌≤◌, length, map, IfOk, IfErr, IsTrue};
ghost use Rattle.sel_bits.specs.Faults.{IsOutOfMemory};
ghost use Rattle.sel_bits.specs.Words.{bits};
ghost use Rattle.sel_ternary.specs.Choose.{choose, broadcast_false};
ghost use Rattle.sel_ternary.specs.ViewSides.{all_rise, can_rise, raised};

use crate::if_then_else::loops::{BlockChoice, choose_blocks};
use crate::if_then_else::scalar::if_then_else_broadcast_false_scalar_64;
use crate::if_then_else::view_lanes::{added, chosen_pair, pair_lanes, raised_lanes};
use sel_arrow::view::{INLINE_BYTES, View};
use sel_bits::aligned_words::AlignedWords;
use sel_bits::bitmap::Bitmap;
use sel_bits::buffer::Buffer;
use sel_bits::faults::PolarsResult;
use std::alloc::Global;

/// Writes to each `out[i]` the view `if_true[i]` if bit `i` of `mask` is set, else `if_false[i]`.
///
/// Adds `false_buffer_idx_offset` to the data buffer index of the views from `if_false`, except
/// inline views, which have none.
///
/// # Requires
/// The three slices have the same length, at most 64, and the offset can be added to the buffer
/// index of each view of `if_false`; check with `views_can_rise`.
pub fn if_then_else_view_rest(
    mask: u64,
    if_true: &[View],
    if_false: &[View],
    out: &mut [View],
    false_buffer_idx_offset: u32,
)
    requires few { length out.old ≤ 64 }
    requires true_side { length if_true.now ≡ length out.old }
    requires false_side { length if_false.now ≡ length out.old }
    requires rises { IsTrue (all_rise false_buffer_idx_offset if_false.now) }
    ensures { out.new ≡ choose (bits (length out.old) mask) if_true.now
        (map (λ view. raised view false_buffer_idx_offset) if_false.now) }
{
    let len = out.len();
    for k in 0..len / 2 {
        let at = 2 * k;
        let trues = pair_lanes(if_true[at], if_true[at + 1]);
        let falses = raised_lanes(if_false[at], if_false[at + 1], false_buffer_idx_offset);
        let pair = chosen_pair(((mask >> at) % 4) as u16, trues, falses);
        out[at] = pair[0];
        out[at + 1] = pair[1];
    }
    if len % 2 == 1 {
        let at = len - 1;
        let other = raise(if_false[at], false_buffer_idx_offset);
        out[at] = if (mask >> at) & 1 == 1 {
            if_true[at]
        } else {
            other
        };
    }
}

/// Returns the view with `by` added to its data buffer index, unless it is inline.
#[inline(always)]
fn raise(view: View, by: u32) -> View
    requires { IsTrue (can_rise by view) }
    ensures { result ≡ raised view by }
{
    let buffer_idx = view.buffer_idx + added(view, by);
    View { buffer_idx, ..view }
}

/// Applies `if_then_else_view_rest` to 64 views.
///
/// # Requires
/// The offset can be added to the buffer index of each view of `if_false`; check with
/// `views_can_rise`.
pub fn if_then_else_view_64(
    mask: u64,
    if_true: &[View; 64],
    if_false: &[View; 64],
    out: &mut [View; 64],
    false_buffer_idx_offset: u32,
)
    requires { IsTrue (all_rise false_buffer_idx_offset if_false.now) }
    ensures { out.new ≡ choose (bits 64 mask) if_true.now
        (map (λ view. raised view false_buffer_idx_offset) if_false.now) }
{
    if_then_else_view_rest(mask, if_true, if_false, out, false_buffer_idx_offset)
}

/// Writes to each `out[i]` the view `if_true[i]` if bit `i` of `mask` is set, else `if_false`.
pub fn if_then_else_broadcast_false_view_64(
    mask: u64,
    if_true: &[View; 64],
    if_false: View,
    out: &mut [View; 64],
)
    ensures { out.new ≡ broadcast_false (bits 64 mask) if_true.now if_false }
{
    if_then_else_broadcast_false_scalar_64(mask, if_true, if_false, out)
}

/// Returns whether `by` can be added to the data buffer index of each view without exceeding
/// 4,294,967,295. Inline views, of up to 12 bytes, have no data buffer.
#[tactic(auto, using(crate::proofs::Placed::all_views))]
pub fn views_can_rise(views: &[View], by: u32) -> bool
    ensures { result ≡ all_rise by views.now }
{
    for view in views {
        if !can_rise(*view, by) {
            return false;
        }
    }
    true
}

/// Returns whether `by` can be added to the data buffer index of the view.
fn can_rise(view: View, by: u32) -> bool
    ensures { result ≡ can_rise by view }
{
    view.length <= INLINE_BYTES || view.buffer_idx <= u32::MAX - by
}

/// Two slices of views; `offset` is added to the data buffer indices of the second.
#[derive(Drop)]
struct BetweenViews<'a> {
    if_true: &'a [View],
    if_false: &'a [View],
    offset: u32,
    ghost rises: { IsTrue (all_rise offset if_false.now) },
}

impl BlockChoice for BetweenViews<'_> {
    ghost use Rattle.std.specs.Prelude.{map};
    ghost use Rattle.sel_ternary.specs.ViewSides.{raised};

    type Item = View;

    ghost trues = { λ c. c.if_true.now };

    ghost falses = { λ c. map (λ view. raised view c.offset) c.if_false.now };

    fn choose_block(&self, mask: u64, at: usize, out: &mut [View]) {
        let if_true = &self.if_true[at..at + out.len()];
        let if_false = &self.if_false[at..at + out.len()];
        if_then_else_view_rest(mask, if_true, if_false, out, self.offset)
    }
}

/// Returns if-then-else of two slices of views, or `OutOfMemory`; adds `offset` to the data
/// buffer indices of the second.
pub(crate) fn choose_views(
    alloc: Global,
    mask: &Bitmap,
    if_true: &[View],
    if_false: &[View],
    offset: u32,
) -> PolarsResult<Buffer<View>>
    requires true_side { length if_true.now ≡ length mask.now.bits }
    requires false_side { length if_false.now ≡ length mask.now.bits }
    requires rises { IsTrue (all_rise offset if_false.now) }
    ensures items { IfOk result (λ out. out ≡
        choose mask.now.bits if_true.now (map (λ view. raised view offset) if_false.now)) }
    ensures refusal { IfErr result IsOutOfMemory }
{
    let mut out = Vec::from_slice(alloc, if_false)?;
    let choice = BetweenViews {
        if_true,
        if_false,
        offset,
    };
    choose_blocks(&choice, &mut AlignedWords::new(mask), &mut out);
    Buffer::from_vec(out)
}
