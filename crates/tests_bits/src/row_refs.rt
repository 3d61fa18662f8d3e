//! Row references, runs of rows, and the values and bits at them, against values that are worked
//! out by hand.

use crate::fixtures::{both, has_validity, same};
use sel_bits::bitmap::Bitmap;
use sel_bits::faults::PolarsResult;
use sel_bits::packer::BitPacker;
use sel_runs::bits::{push_validity, unless_all_true, validity_from};
use sel_runs::each::read_each;
use sel_runs::gather_values::{
    append_bits, gather_parts, plan_has_bits, plan_has_values, validity_at,
};
use sel_runs::part::Part;
use sel_runs::repeat::push_values;
use sel_runs::row_refs::{Listed, runs_of_picks};
use sel_runs::runs::{NO_ROWS, Run, picked_rows, push_run, put_run};
use std::alloc::Global;
use std::test::Fail;

/// Returns whether the run is `len` rows of this source from row `start` on.
pub fn is_run(run: &Run, source: u32, start: u32, len: u32) -> bool {
    (run.source == Some(source)) & (run.start == start) & (run.len == len)
}

/// Returns whether the run is `len` nulls.
pub fn is_run_of_nulls(run: &Run, len: u32) -> bool {
    run.source.is_none() & (run.len == len)
}

/// Returns whether the runs are two rows, two nulls, and two single rows.
fn are_four_runs(runs: &[Run]) -> bool {
    match runs {
        [first, second, third, fourth] => {
            is_run(first, 0, 1, 2)
                & is_run_of_nulls(second, 2)
                & is_run(third, 1, 3, 1)
                & is_run(fourth, 0, 3, 1)
        }
        _ => false,
    }
}

#[test]
fn consecutive_row_references_are_one_run(rt: HostRuntime) -> Result<(), Fail> {
    let picks = [
        Some((0, 1)),
        Some((0, 2)),
        None,
        None,
        Some((1, 3)),
        Some((0, 3)),
    ];
    let runs = runs_of_picks(rt.alloc(), &picks)?;
    assert!(rt; are_four_runs(&runs));
    Ok(())
}

/// Returns two consecutive runs, which are merged, and nulls.
fn some_runs(alloc: Global) -> PolarsResult<Vec<Run>> {
    let mut runs = Vec::new(alloc);
    for (source, start, len) in [(Some(0), 1, 1), (Some(0), 2, 1), (None, 0, 2)] {
        if picked_rows(&runs) <= 10 && len <= 10 {
            push_run(&mut runs, Run { source, start, len })?;
        }
    }
    Ok(runs)
}

#[test]
fn consecutive_runs_are_merged(rt: HostRuntime) -> Result<(), Fail> {
    let runs = some_runs(rt.alloc())?;
    assert!(rt; (runs.len() == 2) & (picked_rows(&runs) == 4));
    Ok(())
}

#[test]
fn bits_at_row_references_in_bounds(rt: HostRuntime) -> Result<(), Fail> {
    let bits = Bitmap::from_bools(rt.alloc(), &[true, false])?;
    let maps = [None, Some(&bits)];
    let table: [(&[Option<(u32, u32)>], bool); 3] = [
        (&[Some((0, 9)), None, Some((1, 1))], true),
        (&[Some((1, 2))], false),
        (&[Some((2, 0))], false),
    ];
    for (picks, has_bits) in table {
        assert!(rt; plan_has_bits(&maps, &Listed { picks }) == has_bits);
    }
    Ok(())
}

/// Returns the validity of three true bits, followed by the last of two.
fn three_and_one_bit(alloc: Global) -> PolarsResult<Option<Bitmap>> {
    let bits = Bitmap::from_bools(alloc, &[false, true])?;
    let mut packer = BitPacker::with_capacity(alloc, 4)?;
    push_validity(&mut packer, None, 7, 3)?;
    push_validity(&mut packer, Some(&bits), 1, 1)?;
    validity_from(packer, 4)
}

#[test]
fn validity_of_true_bits_is_none(rt: HostRuntime) -> Result<(), Fail> {
    assert!(rt; three_and_one_bit(rt.alloc())?.is_none());
    Ok(())
}

/// Returns whether bits with a false one are a validity, and true bits are none.
fn keeps_false_bits(alloc: Global) -> PolarsResult<bool> {
    let some = Bitmap::from_bools(alloc, &[true, false]);
    let (some, all) = both(some, Bitmap::from_bools(alloc, &[true, true]))?;
    if some.len() != 2 || all.len() != 2 {
        return Ok(false);
    }
    let kept = has_validity(&unless_all_true(some, 2), &[true, false]);
    Ok(kept & unless_all_true(all, 2).is_none())
}

#[test]
fn true_bits_are_no_validity(rt: HostRuntime) -> Result<(), Fail> {
    assert!(rt; keeps_false_bits(rt.alloc())?);
    Ok(())
}

const PICKS: [Option<(u32, u32)>; 4] = [Some((1, 0)), None, Some((0, 2)), Some((1, 1))];

/// Returns whether the row references give the values and the validity of two sources, of which the
/// second has a null.
fn gathers_two_sources(alloc: Global, valid: &Bitmap) -> PolarsResult<bool> {
    if valid.len() != 2 {
        return Ok(false);
    }
    let parts = [
        Part {
            values: &[10i64, 20, 30],
            validity: None,
        },
        Part {
            values: &[40, 50],
            validity: Some(valid),
        },
    ];
    let plan = Listed { picks: &PICKS };
    if !plan_has_values(&parts, &plan) {
        return Ok(false);
    }
    let (values, validity) = gather_parts(alloc, &plan, &parts, 0)?;
    Ok(
        same(values.as_slice(), &[40, 0, 30, 50])
            & has_validity(&validity, &[true, false, true, false]),
    )
}

/// Returns whether the row references give these bits of two bitmaps, of which the first is absent.
fn finds_bits(alloc: Global, bits: &Bitmap) -> PolarsResult<bool> {
    let maps = [None, Some(bits)];
    let plan = Listed { picks: &PICKS };
    if !plan_has_bits(&maps, &plan) {
        return Ok(false);
    }
    let validity = validity_at(alloc, &plan, &maps)?;
    let mut packer = BitPacker::with_capacity(alloc, 4)?;
    append_bits(&mut packer, &plan, &maps)?;
    let appended = validity_from(packer, 4)?;
    Ok(
        has_validity(&validity, &[true, false, true, false])
            & has_validity(&appended, &[true, false, true, false]),
    )
}

#[test]
fn values_and_bits_at_row_references(rt: HostRuntime) -> Result<(), Fail> {
    let bits = Bitmap::from_bools(rt.alloc(), &[true, false])?;
    assert!(rt; gathers_two_sources(rt.alloc(), &bits)?);
    assert!(rt; finds_bits(rt.alloc(), &bits)?);
    Ok(())
}

#[test]
fn values_at_row_references_in_bounds(rt: HostRuntime) {
    let parts = [Part {
        values: &[10u8, 20],
        validity: None,
    }];
    let table: [(&[Option<(u32, u32)>], bool); 3] = [
        (&[Some((0, 1)), None], true),
        (&[Some((0, 2))], false),
        (&[Some((1, 0))], false),
    ];
    for (picks, has_values) in table {
        assert!(rt; plan_has_values(&parts, &Listed { picks }) == has_values);
    }
}

/// Returns whether the first run becomes the last one, and is not appended.
fn keeps_first(alloc: Global) -> PolarsResult<bool> {
    let mut runs = Vec::new(alloc);
    let mut last = NO_ROWS;
    let run = Run {
        source: Some(0),
        start: 2,
        len: 3,
    };
    put_run(&mut runs, &mut last, run)?;
    Ok(runs.is_empty() & is_run(&last, 0, 2, 3))
}

#[test]
fn first_run_is_the_last(rt: HostRuntime) -> Result<(), Fail> {
    assert!(rt; keeps_first(rt.alloc())?);
    Ok(())
}

/// Returns whether a function is called with each number, and a number is repeated.
fn lists_numbers(alloc: Global) -> PolarsResult<bool> {
    let halves = read_each(alloc, &[2u8, 4, 7], |number: u8| number / 2)?;
    let mut sevens = Vec::new(alloc);
    push_values(&mut sevens, 7u8, 3)?;
    Ok(same(halves.as_slice(), &[1, 2, 3]) & same(sevens.as_slice(), &[7, 7, 7]))
}

#[test]
fn results_of_each_and_repeated_values(rt: HostRuntime) -> Result<(), Fail> {
    assert!(rt; lists_numbers(rt.alloc())?);
    Ok(())
}
