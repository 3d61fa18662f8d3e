//! If-then-else for 16 values at a time by vector operations, without a branch for each bit.

ghost use Rattle.std.specs.Prelude.{◌≡◌, ◌≤◌, ◌+◌, ◌/◌, ◌^◌, ◌++◌, length, map};
ghost use Rattle.std.specs.Int.{cast_signed, cast_unsigned, w8, w16, w32, w64};
ghost use Rattle.std.specs.Simd.Lanes.{Each1};
ghost use Rattle.std.specs.Vec.{vec_len, vec_capacity};
ghost use Rattle.sel_bits.specs.Words.{bits};
ghost use Rattle.sel_ternary.specs.Choose.{choose};
ghost use Rattle.sel_ternary.specs.Lanes.{all_ones};
ghost use Rattle.sel_ternary.specs.SideValues.{side_values};

use crate::if_then_else::side::Side;
use std::simd::prelude::*;

/// A type of the values of a column with an if-then-else for 16 values: an integer, or a view.
pub trait ChooseLanes: Copy + Drop {
    /// Appends for each `i` below 16 the value `if_true[i]` if bit `i` of `mask` is set, else
    /// `if_false[i]`.
    ///
    /// # Requires
    /// Both slices have 16 values, and `out` has spare capacity for as many.
    fn push_16(mask: u16, if_true: &[Self], if_false: &[Self], out: &mut Vec<Self>)
        requires true_side { length if_true.now ≡ 16 }
        requires false_side { length if_false.now ≡ 16 }
        requires room { vec_len out.old + 16 ≤ vec_capacity out.old }
        ensures items { out.new.items ≡
            out.old.items ++ choose (bits 16 mask) if_true.now if_false.now }
        ensures capacity { vec_capacity out.new ≡ vec_capacity out.old }
    {
        Self::push_sides(mask, &Side::Rows(if_true), &Side::Rows(if_false), out)
    }

    /// Appends for each `i` below 16 the value of row `i` of `if_true` if bit `i` of `mask` is set,
    /// else that of `if_false`.
    ///
    /// # Requires
    /// Both sides have 16 rows, and `out` has spare capacity for as many values.
    fn push_sides(mask: u16, if_true: &Side<Self>, if_false: &Side<Self>, out: &mut Vec<Self>)
        requires true_side { length (side_values if_true.now) ≡ 16 }
        requires false_side { length (side_values if_false.now) ≡ 16 }
        requires room { vec_len out.old + 16 ≤ vec_capacity out.old }
        ensures items { out.new.items ≡ out.old.items ++
            choose (bits 16 mask) (side_values if_true.now) (side_values if_false.now) }
        ensures capacity { vec_capacity out.new ≡ vec_capacity out.old };
}

impl ChooseLanes for i8 {
    #[inline(always)]
    fn push_sides(mask: u16, if_true: &Side<i8>, if_false: &Side<i8>, out: &mut Vec<i8>) {
        let (one, other) = (lanes_i8(if_true), lanes_i8(if_false));
        let chosen = set_lanes_8(mask).select(one, other).to_array();
        push_lanes(16, &chosen, out)
    }
}

impl ChooseLanes for i16 {
    #[inline(always)]
    fn push_sides(mask: u16, if_true: &Side<i16>, if_false: &Side<i16>, out: &mut Vec<i16>) {
        let (one, other) = (lanes_i16(if_true), lanes_i16(if_false));
        let chosen = set_lanes_16(mask).select(one, other).to_array();
        push_lanes(16, &chosen, out)
    }
}

impl ChooseLanes for i32 {
    #[inline(always)]
    fn push_sides(mask: u16, if_true: &Side<i32>, if_false: &Side<i32>, out: &mut Vec<i32>) {
        for k in 0..2 {
            let at = 8 * k;
            let (trues, falses) = (if_true.part(at, 8), if_false.part(at, 8));
            let (one, other) = (lanes_i32(&trues), lanes_i32(&falses));
            let chosen = set_lanes_32(mask, at).select(one, other).to_array();
            push_lanes(8, &chosen, out);
        }
    }
}

impl ChooseLanes for i64 {
    #[inline(always)]
    fn push_sides(mask: u16, if_true: &Side<i64>, if_false: &Side<i64>, out: &mut Vec<i64>) {
        for k in 0..4 {
            let at = 4 * k;
            let (trues, falses) = (if_true.part(at, 4), if_false.part(at, 4));
            let (one, other) = (lanes_i64(&trues), lanes_i64(&falses));
            let chosen = set_lanes_64(mask, at).select(one, other).to_array();
            push_lanes(4, &chosen, out);
        }
    }
}

impl ChooseLanes for u8 {
    #[inline(always)]
    fn push_sides(mask: u16, if_true: &Side<u8>, if_false: &Side<u8>, out: &mut Vec<u8>) {
        let (one, other) = (lanes_u8(if_true), lanes_u8(if_false));
        let chosen = set_lanes_8(mask).select(one, other).to_array();
        push_lanes(16, &chosen, out)
    }
}

impl ChooseLanes for u16 {
    #[inline(always)]
    fn push_sides(mask: u16, if_true: &Side<u16>, if_false: &Side<u16>, out: &mut Vec<u16>) {
        let (one, other) = (lanes_u16(if_true), lanes_u16(if_false));
        let chosen = set_lanes_16(mask).select(one, other).to_array();
        push_lanes(16, &chosen, out)
    }
}

impl ChooseLanes for u32 {
    #[inline(always)]
    fn push_sides(mask: u16, if_true: &Side<u32>, if_false: &Side<u32>, out: &mut Vec<u32>) {
        for k in 0..2 {
            let at = 8 * k;
            let (trues, falses) = (if_true.part(at, 8), if_false.part(at, 8));
            let (one, other) = (lanes_u32(&trues), lanes_u32(&falses));
            let chosen = set_lanes_32(mask, at).select(one, other).to_array();
            push_lanes(8, &chosen, out);
        }
    }
}

impl ChooseLanes for u64 {
    #[inline(always)]
    fn push_sides(mask: u16, if_true: &Side<u64>, if_false: &Side<u64>, out: &mut Vec<u64>) {
        for k in 0..4 {
            let at = 4 * k;
            let (trues, falses) = (if_true.part(at, 4), if_false.part(at, 4));
            let (one, other) = (lanes_u64(&trues), lanes_u64(&falses));
            let chosen = set_lanes_64(mask, at).select(one, other).to_array();
            push_lanes(4, &chosen, out);
        }
    }
}

impl ChooseLanes for i128 {
    fn push_sides(mask: u16, if_true: &Side<i128>, if_false: &Side<i128>, out: &mut Vec<i128>) {
        push_bits(u64::from(mask), 16, if_true, if_false, out)
    }
}

impl ChooseLanes for u128 {
    fn push_sides(mask: u16, if_true: &Side<u128>, if_false: &Side<u128>, out: &mut Vec<u128>) {
        push_bits(u64::from(mask), 16, if_true, if_false, out)
    }
}

/// Appends for each `i` below `count` the value of row `i` of `if_true` if bit `i` of `mask` is
/// set, else that of `if_false`.
///
/// # Requires
/// Both sides have `count` rows, at most 64, and `out` has spare capacity for as many values.
#[inline(always)]
#[tactic(auto, using(crate::proofs::Lanes::filling))]
pub(crate) fn push_bits<T: Copy>(
    mask: u64,
    count: usize,
    if_true: &Side<T>,
    if_false: &Side<T>,
    out: &mut Vec<T>,
)
    requires few { count ≤ 64 }
    requires true_side { length (side_values if_true.now) ≡ count }
    requires false_side { length (side_values if_false.now) ≡ count }
    requires room { vec_len out.old + count ≤ vec_capacity out.old }
    ensures items { out.new.items ≡ out.old.items ++
        choose (bits count mask) (side_values if_true.now) (side_values if_false.now) }
    ensures capacity { vec_capacity out.new ≡ vec_capacity out.old }
{
    for i in 0..count {
        let (one, other) = (if_true.value(i), if_false.value(i));
        out.push_reserved(if (mask >> i) & 1 == 1 { one } else { other });
    }
}

/// Appends `count` values.
///
/// # Requires
/// There are as many, and `out` has spare capacity for them.
#[inline(always)]
fn push_lanes<T: Copy>(count: usize, lanes: &[T], out: &mut Vec<T>)
    requires many { length lanes.now ≡ count }
    requires room { vec_len out.old + count ≤ vec_capacity out.old }
    ensures items { out.new.items ≡ out.old.items ++ lanes.now }
    ensures capacity { vec_capacity out.new ≡ vec_capacity out.old }
{
    for i in 0..count {
        out.push_reserved(lanes[i]);
    }
}

/// Returns the lanes whose bit of `mask` is set.
#[inline(always)]
fn set_lanes_8(mask: u16) -> mask8x16
    ensures { result ≡ map all_ones (bits 16 mask) }
{
    let powers = u8x16::from_array([1, 2, 4, 8, 16, 32, 64, 128, 1, 2, 4, 8, 16, 32, 64, 128]);
    let (low, high) = (
        u8x16::splat((mask % 256) as u8),
        u8x16::splat((mask / 256) as u8),
    );
    let bytes = low.shuffle(
        high,
        [0, 0, 0, 0, 0, 0, 0, 0, 16, 16, 16, 16, 16, 16, 16, 16],
    );
    (bytes & powers).simd_eq(powers)
}

/// Returns the lanes whose bit of `mask` is set.
#[inline(always)]
fn set_lanes_16(mask: u16) -> mask16x16
    ensures { result ≡ map all_ones (bits 16 mask) }
{
    let powers = u16x16::from_array([
        1, 2, 4, 8, 16, 32, 64, 128, 256, 512, 1024, 2048, 4096, 8192, 16384, 32768,
    ]);
    (u16x16::splat(mask) & powers).simd_eq(powers)
}

/// Returns the lanes of eight rows whose bit of `mask`, from bit `at` on, is set.
#[inline(always)]
fn set_lanes_32(mask: u16, at: usize) -> mask32x8
    requires { at + 8 ≤ 16 }
    ensures { result ≡ map all_ones (bits 8 (mask / 2 ^ at)) }
{
    let powers = u32x8::from_array([
        1 << at,
        2 << at,
        4 << at,
        8 << at,
        16 << at,
        32 << at,
        64 << at,
        128 << at,
    ]);
    (u32x8::splat(u32::from(mask)) & powers).simd_eq(powers)
}

/// Returns the lanes of four rows whose bit of `mask`, from bit `at` on, is set.
#[inline(always)]
fn set_lanes_64(mask: u16, at: usize) -> mask64x4
    requires { at + 4 ≤ 16 }
    ensures { result ≡ map all_ones (bits 4 (mask / 2 ^ at)) }
{
    let powers = u64x4::from_array([1 << at, 2 << at, 4 << at, 8 << at]);
    (u64x4::splat(u64::from(mask)) & powers).simd_eq(powers)
}

/// Returns the values of 16 rows.
#[inline(always)]
fn lanes_i8(side: &Side<i8>) -> i8x16
    requires { length (side_values side.now) ≡ 16 }
    ensures values { result ≡ side_values side.now }
    ensures range { Each1 (λ x. cast_signed w8 (cast_unsigned w8 x) ≡ x) (side_values side.now) }
{
    match side {
        Side::Rows(values) => {
            show_range_8(values);
            i8x16::from_slice(values)
        }
        Side::Scalar(value, _) => i8x16::splat(*value),
    }
}

/// Returns the values of 16 rows.
#[inline(always)]
fn lanes_i16(side: &Side<i16>) -> i16x16
    requires { length (side_values side.now) ≡ 16 }
    ensures values { result ≡ side_values side.now }
    ensures range { Each1 (λ x. cast_signed w16 (cast_unsigned w16 x) ≡ x)
        (side_values side.now) }
{
    match side {
        Side::Rows(values) => {
            show_range_16(values);
            i16x16::from_slice(values)
        }
        Side::Scalar(value, _) => i16x16::splat(*value),
    }
}

/// Returns the values of eight rows.
#[inline(always)]
fn lanes_i32(side: &Side<i32>) -> i32x8
    requires { length (side_values side.now) ≡ 8 }
    ensures values { result ≡ side_values side.now }
    ensures range { Each1 (λ x. cast_signed w32 (cast_unsigned w32 x) ≡ x)
        (side_values side.now) }
{
    match side {
        Side::Rows(values) => {
            show_range_32(values);
            i32x8::from_slice(values)
        }
        Side::Scalar(value, _) => i32x8::splat(*value),
    }
}

/// Returns the values of four rows.
#[inline(always)]
fn lanes_i64(side: &Side<i64>) -> i64x4
    requires { length (side_values side.now) ≡ 4 }
    ensures values { result ≡ side_values side.now }
    ensures range { Each1 (λ x. cast_signed w64 (cast_unsigned w64 x) ≡ x)
        (side_values side.now) }
{
    match side {
        Side::Rows(values) => {
            show_range_64(values);
            i64x4::from_slice(values)
        }
        Side::Scalar(value, _) => i64x4::splat(*value),
    }
}

/// Returns the values of 16 rows.
#[inline(always)]
fn lanes_u8(side: &Side<u8>) -> u8x16
    requires { length (side_values side.now) ≡ 16 }
    ensures { result ≡ side_values side.now }
{
    match side {
        Side::Rows(values) => u8x16::from_slice(values),
        Side::Scalar(value, _) => u8x16::splat(*value),
    }
}

/// Returns the values of 16 rows.
#[inline(always)]
fn lanes_u16(side: &Side<u16>) -> u16x16
    requires { length (side_values side.now) ≡ 16 }
    ensures { result ≡ side_values side.now }
{
    match side {
        Side::Rows(values) => u16x16::from_slice(values),
        Side::Scalar(value, _) => u16x16::splat(*value),
    }
}

/// Returns the values of eight rows.
#[inline(always)]
fn lanes_u32(side: &Side<u32>) -> u32x8
    requires { length (side_values side.now) ≡ 8 }
    ensures { result ≡ side_values side.now }
{
    match side {
        Side::Rows(values) => u32x8::from_slice(values),
        Side::Scalar(value, _) => u32x8::splat(*value),
    }
}

/// Returns the values of four rows.
#[inline(always)]
fn lanes_u64(side: &Side<u64>) -> u64x4
    requires { length (side_values side.now) ≡ 4 }
    ensures { result ≡ side_values side.now }
{
    match side {
        Side::Rows(values) => u64x4::from_slice(values),
        Side::Scalar(value, _) => u64x4::splat(*value),
    }
}

// Reads the values, which gives the proof their range; the compiler removes the reads.
#[inline(always)]
fn show_range_8(values: &[i8])
    ensures { Each1 (λ x. cast_signed w8 (cast_unsigned w8 x) ≡ x) values.now }
{
    for i in 0..values.len() {
        let _value = values[i];
    }
}

// Reads the values, which gives the proof their range; the compiler removes the reads.
#[inline(always)]
fn show_range_16(values: &[i16])
    ensures { Each1 (λ x. cast_signed w16 (cast_unsigned w16 x) ≡ x) values.now }
{
    for i in 0..values.len() {
        let _value = values[i];
    }
}

// Reads the values, which gives the proof their range; the compiler removes the reads.
#[inline(always)]
fn show_range_32(values: &[i32])
    ensures { Each1 (λ x. cast_signed w32 (cast_unsigned w32 x) ≡ x) values.now }
{
    for i in 0..values.len() {
        let _value = values[i];
    }
}

// Reads the values, which gives the proof their range; the compiler removes the reads.
#[inline(always)]
fn show_range_64(values: &[i64])
    ensures { Each1 (λ x. cast_signed w64 (cast_unsigned w64 x) ≡ x) values.now }
{
    for i in 0..values.len() {
        let _value = values[i];
    }
}
