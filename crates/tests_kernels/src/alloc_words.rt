//! Functions on words, views, runs and validities that must not allocate: each allocation fails.

use crate::words::ends_and_middle;
use polars_compute::if_then_else::scalar::{
    if_then_else_broadcast_both_scalar_64, if_then_else_broadcast_both_scalar_rest,
    if_then_else_broadcast_false_scalar_64, if_then_else_broadcast_false_scalar_rest,
    if_then_else_scalar_64, if_then_else_scalar_rest,
};
use polars_compute::if_then_else::view::{
    if_then_else_broadcast_false_view_64, if_then_else_view_64, if_then_else_view_rest,
    views_can_rise,
};
use sel_arrow::validity::{clone_validity, has_other_length, is_valid_at, sliced_validity};
use sel_arrow::view::View;
use sel_bits::bitmap::Bitmap;
use sel_gather::view::raised_view;
use sel_runs::runs::{nulls_of, run_of_pick};
use std::alloc::Global;
use std::test::Fail;
use tests_bits::fixtures::has_validity;
use tests_bits::marks::{begins_free, ends_answered};

/// Returns whether if-then-else by a few bits of a word has the right values.
fn chooses_few(alloc: Global) -> bool {
    let (mut both, mut one, mut none) = ([0u8; 3], [0u8; 3], [0u8; 3]);
    begins_free(alloc);
    if_then_else_scalar_rest(0b101, &[1, 2, 3], &[4, 5, 6], &mut both);
    if_then_else_broadcast_false_scalar_rest(0b101, &[1, 2, 3], 9, &mut one);
    if_then_else_broadcast_both_scalar_rest(0b110, 7, 8, &mut none);
    ends_answered(alloc);
    both == [1, 5, 3] && one == [1, 9, 3] && none == [8, 7, 7]
}

// The first and the last bit of a word.
const ENDS: u64 = 1 | 1 << 63;

/// Returns whether if-then-else by all bits of a word has the right values.
fn chooses_many(alloc: Global) -> bool {
    let (mut both, mut one, mut none) = ([0u8; 64], [0u8; 64], [0u8; 64]);
    begins_free(alloc);
    if_then_else_scalar_64(ENDS, &[1; 64], &[2; 64], &mut both);
    if_then_else_broadcast_false_scalar_64(ENDS, &[3; 64], 4, &mut one);
    if_then_else_broadcast_both_scalar_64(ENDS, 5, 6, &mut none);
    ends_answered(alloc);
    both == ends_and_middle(1, 2, 1)
        && one == ends_and_middle(3, 4, 3)
        && none == ends_and_middle(5, 6, 5)
}

/// Returns whether runs of one row, of one null and of nulls are right.
fn makes_runs(alloc: Global) -> bool {
    begins_free(alloc);
    let one = run_of_pick(Some((2, 7)));
    let null = run_of_pick(None);
    let nulls = nulls_of(3);
    ends_answered(alloc);
    (one.source, one.start, one.len) == (Some(2), 7, 1)
        && (null.source, null.len) == (None, 1)
        && (nulls.source, nulls.len) == (None, 3)
}

/// Returns whether a long view has a raised buffer index, and an inline view is unchanged.
fn raises_views(alloc: Global) -> bool {
    let far = View::new_from_bytes(b"abcdefghijklm", 2, 5);
    let near = View::new_from_bytes(b"abcdefghijkl", 0, 0);
    begins_free(alloc);
    let raised = (raised_view(far, 3), raised_view(near, 4_294_967_295));
    ends_answered(alloc);
    raised == (View::new_from_bytes(b"abcdefghijklm", 5, 5), near)
}

#[test]
fn single_runs_do_not_allocate(rt: HostRuntime) {
    assert!(rt; makes_runs(rt.alloc()) && raises_views(rt.alloc()));
}

/// Returns whether if-then-else of views by the bits of a word has the right views.
fn chooses_views(alloc: Global) -> bool {
    let far = View::new_from_bytes(b"abcdefghijklm", 0, 0);
    let raised = View::new_from_bytes(b"abcdefghijklm", 1, 0);
    let falses = [far; 64];
    let (mut few, mut many, mut one) = ([far; 2], [far; 64], [far; 64]);
    begins_free(alloc);
    let can_rise = views_can_rise(&falses, 1) && views_can_rise(&[far; 2], 1);
    if can_rise {
        if_then_else_view_rest(0b10, &[far; 2], &[far; 2], &mut few, 1);
        if_then_else_view_64(1, &[far; 64], &falses, &mut many, 1);
    }
    if_then_else_broadcast_false_view_64(1 << 63, &[far; 64], raised, &mut one);
    ends_answered(alloc);
    can_rise
        && few == [raised, far]
        && many == ends_and_middle(far, raised, raised)
        && one == ends_and_middle(raised, raised, far)
}

#[test]
fn if_then_else_by_a_word_does_not_allocate(rt: HostRuntime) {
    assert!(rt; chooses_few(rt.alloc()));
    assert!(rt; chooses_many(rt.alloc()));
    assert!(rt; chooses_views(rt.alloc()));
}

const BITS: [bool; 5] = [true, false, true, true, false];

fn parts_validity(alloc: Global, validity: &Option<Bitmap>) -> bool {
    if has_other_length(validity, 5) {
        return false;
    }
    begins_free(alloc);
    let is_first = is_valid_at(validity, 0);
    let part = sliced_validity(validity, 1, 2);
    let copy = clone_validity(validity);
    ends_answered(alloc);
    is_first
        && part.is_ok_and(|part| has_validity(&part, &[false, true]))
        && copy.is_ok_and(|copy| has_validity(&copy, &BITS))
}

#[test]
fn validity_slices_do_not_allocate(rt: HostRuntime) -> Result<(), Fail> {
    let validity = Some(Bitmap::from_bools(rt.alloc(), &BITS)?);
    assert!(rt; parts_validity(rt.alloc(), &validity));
    Ok(())
}
