//! If-then-else of the views of a partial word, and its validities. (`alloc_words` has the kernels
//! of numbers and of full words.)

use sel_arrow::view::View;
use sel_bits::bitmap::Bitmap;
use sel_bits::faults::PolarsResult;
use sel_ternary::if_then_else::if_then_else_validity;
use sel_ternary::if_then_else::view::{if_then_else_view_rest, views_can_rise};
use std::alloc::Global;
use std::test::Fail;
use tests_bits::fixtures::{both, has_bits};

/// Returns 64 values: the first, the last, and another at each position between.
pub fn ends_and_middle<T: Copy>(first: T, middle: T, last: T) -> [T; 64] {
    let mut values = [middle; 64];
    values[0] = first;
    values[63] = last;
    values
}

const SHORT: View = View {
    length: 8,
    prefix: 1684234849,
    buffer_idx: 1751606885,
    offset: 0,
};

const LONG: View = View {
    length: 13,
    prefix: 1684234849,
    buffer_idx: 0,
    offset: 0,
};

const OTHER: View = View {
    length: 13,
    prefix: 1903193966,
    buffer_idx: 0,
    offset: 0,
};

// Returns the view with the next buffer index.
fn in_second(view: View) -> View {
    View {
        buffer_idx: 1,
        ..view
    }
}

#[test]
fn false_values_have_raised_buffer_index(rt: HostRuntime) -> Result<(), Fail> {
    let views = [SHORT, LONG, OTHER];
    let mut out = views;
    if_then_else_view_rest(0, &views, &views, &mut out, 1);
    assert!(rt; out == [SHORT, in_second(LONG), in_second(OTHER)]);
    if_then_else_view_rest(7, &views, &views, &mut out, 1);
    assert!(rt; out == views);
    Ok(())
}

#[test]
fn inline_views_keep_their_buffer_index(rt: HostRuntime) -> Result<(), Fail> {
    let inline = View {
        length: 4,
        prefix: 0,
        buffer_idx: 4_294_967_295,
        offset: 0,
    };
    let mut out = [LONG];
    if_then_else_view_rest(0, &[LONG], &[inline], &mut out, 1);
    assert!(rt; out == [inline]);
    assert!(rt; views_can_rise(&[inline], 1));
    let last = View {
        buffer_idx: 4_294_967_295,
        ..LONG
    };
    assert!(rt; views_can_rise(&[LONG, last], 0) && !views_can_rise(&[LONG, last], 1));
    Ok(())
}

// Returns whether the validity of an if-then-else is these bits, or none.
fn is_validity(
    alloc: Global,
    mask: &Bitmap,
    if_true: Option<&Bitmap>,
    if_false: Option<&Bitmap>,
    bits: Option<&[bool]>,
) -> PolarsResult<bool> {
    if let Some(side) = if_true {
        if side.len() != mask.len() {
            return Ok(false);
        }
    }
    if let Some(side) = if_false {
        if side.len() != mask.len() {
            return Ok(false);
        }
    }
    match (if_then_else_validity(alloc, mask, if_true, if_false)?, bits) {
        (Some(chosen), Some(bits)) => Ok(has_bits(&chosen, bits)),
        (chosen, bits) => Ok(chosen.is_none() && bits.is_none()),
    }
}

#[test]
fn validities_of_if_then_else(rt: HostRuntime) -> Result<(), Fail> {
    let alloc = rt.alloc();
    let mask = Bitmap::from_bools(alloc, &[true, false]);
    let (mask, bits) = both(mask, Bitmap::from_bools(alloc, &[false, false]))?;
    let table: [(Option<&Bitmap>, Option<&Bitmap>, Option<&[bool]>); 4] = [
        (None, None, None),
        (None, Some(&bits), Some(&[true, false])),
        (Some(&bits), None, Some(&[false, true])),
        (Some(&bits), Some(&mask), Some(&[false, false])),
    ];
    for (if_true, if_false, wanted) in table {
        assert!(rt; is_validity(alloc, &mask, if_true, if_false, wanted) == Ok(true));
    }
    Ok(())
}
