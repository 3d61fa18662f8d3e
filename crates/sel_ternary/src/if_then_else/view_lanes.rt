//! If-then-else for 16 views at a time, two in a vector, without a branch for each bit.

ghost use Rattle.std.specs.Prelude.{◌≡◌, ◌≤◌, ◌+◌, ◌++◌, ◌∷◌, [], length, get_or, map, IsTrue, if◌then◌else◌};
ghost use Rattle.std.specs.Vec.{vec_len, vec_capacity};
ghost use Rattle.sel_bits.specs.Words.{bits, is_set};
ghost use Rattle.sel_ternary.specs.Choose.{choose};
ghost use Rattle.sel_ternary.specs.Lanes.{all_ones, pair_fields};
ghost use Rattle.sel_ternary.specs.SideValues.{side_values};
ghost use Rattle.sel_ternary.specs.ViewSides.{can_rise, raised};
ghost use Rattle.sel_arrow.specs.declared.view.View.{View};

use crate::if_then_else::lanes::ChooseLanes;
use crate::if_then_else::side::Side;
use sel_arrow::view::{INLINE_BYTES, View};
use std::simd::prelude::*;

impl ChooseLanes for View {
    #[inline(always)]
    #[tactic(auto, using(crate::proofs::Lanes::filling))]
    fn push_sides(mask: u16, if_true: &Side<View>, if_false: &Side<View>, out: &mut Vec<View>) {
        for k in 0..8 {
            let at = 2 * k;
            let (trues, falses) = (if_true.part(at, 2), if_false.part(at, 2));
            push_pair(mask >> at, &trues, &falses, out);
        }
    }
}

/// Appends for each `i` below 2 the view of row `i` of `if_true` if bit `i` of `mask` is set, else
/// that of `if_false`.
///
/// # Requires
/// Both sides have two rows, and `out` has spare capacity for as many views.
#[inline(always)]
fn push_pair(mask: u16, if_true: &Side<View>, if_false: &Side<View>, out: &mut Vec<View>)
    requires true_side { length (side_values if_true.now) ≡ 2 }
    requires false_side { length (side_values if_false.now) ≡ 2 }
    requires room { vec_len out.old + 2 ≤ vec_capacity out.old }
    ensures items { out.new.items ≡ out.old.items ++
        choose (bits 2 mask) (side_values if_true.now) (side_values if_false.now) }
    ensures capacity { vec_capacity out.new ≡ vec_capacity out.old }
{
    let [one, other] = chosen_pair(mask, lanes_of(if_true), lanes_of(if_false));
    out.push_reserved(one);
    out.push_reserved(other);
}

/// Returns the fields of the views of two rows.
#[inline(always)]
fn lanes_of(side: &Side<View>) -> u32x8
    requires { length (side_values side.now) ≡ 2 }
    ensures { (d : View) → result ≡ pair_fields (get_or (side_values side.now) 0 d)
        (get_or (side_values side.now) 1 d) }
{
    match side {
        Side::Rows(views) => pair_lanes(views[0], views[1]),
        Side::Scalar(view, _) => pair_lanes(*view, *view),
    }
}

/// Returns the views that the two lowest bits of `mask` choose between the views with these fields.
#[inline(always)]
pub(crate) fn chosen_pair(mask: u16, if_true: u32x8, if_false: u32x8) -> [View; 2]
    ensures { (a b c d : View) → if_true ≡ pair_fields a b → if_false ≡ pair_fields c d →
        result ≡ (if is_set mask 0 then a else c) ∷ (if is_set mask 1 then b else d) ∷ [] }
{
    views_of(set_pair(mask).select(if_true, if_false))
}

/// Returns the lanes of two views, four each, whose bit of `mask` is set.
#[inline(always)]
fn set_pair(mask: u16) -> mask32x8
    ensures { result ≡ map all_ones (is_set mask 0 ∷ is_set mask 0 ∷ is_set mask 0 ∷
        is_set mask 0 ∷ is_set mask 1 ∷ is_set mask 1 ∷ is_set mask 1 ∷ is_set mask 1 ∷ []) }
{
    let places = u32x8::from_array([1, 1, 1, 1, 2, 2, 2, 2]);
    (u32x8::splat(u32::from(mask)) & places).simd_eq(places)
}

/// Returns the fields of two views.
#[inline(always)]
pub(crate) fn pair_lanes(one: View, other: View) -> u32x8
    ensures { result ≡ pair_fields one other }
{
    u32x8::from_array([
        one.length,
        one.prefix,
        one.buffer_idx,
        one.offset,
        other.length,
        other.prefix,
        other.buffer_idx,
        other.offset,
    ])
}

/// Returns the fields of two views with `by` added to the data buffer index of each, unless it is
/// inline.
#[inline(always)]
pub(crate) fn raised_lanes(one: View, other: View, by: u32) -> u32x8
    requires one { IsTrue (can_rise by one) }
    requires other { IsTrue (can_rise by other) }
    ensures { result ≡ pair_fields (raised one by) (raised other by) }
{
    let (first, second) = (added(one, by), added(other, by));
    pair_lanes(one, other) + u32x8::from_array([0, 0, first, 0, 0, 0, second, 0])
}

/// Returns what is added to the data buffer index of a view: `by`, or 0 if it is inline.
#[inline(always)]
pub(crate) fn added(view: View, by: u32) -> u32
    requires { IsTrue (can_rise by view) }
    ensures sum { (record {
      length = view.length;
      prefix = view.prefix;
      buffer_idx = view.buffer_idx + result;
      offset = view.offset;
    }) ≡ raised view by }
    ensures few { view.buffer_idx + result ≤ 4294967295 }
{
    if view.length <= INLINE_BYTES { 0 } else { by }
}

/// Returns the two views with these fields.
#[inline(always)]
fn views_of(fields: u32x8) -> [View; 2]
    ensures { (one other : View) →
        fields ≡ pair_fields one other → result ≡ one ∷ other ∷ [] }
{
    let lanes = fields.to_array();
    [
        View {
            length: lanes[0],
            prefix: lanes[1],
            buffer_idx: lanes[2],
            offset: lanes[3],
        },
        View {
            length: lanes[4],
            prefix: lanes[5],
            buffer_idx: lanes[6],
            offset: lanes[7],
        },
    ]
}
