//! `select_rows`: the rows of several columns at indices among those that a mask keeps.

use crate::parsed::{parsed, prints};
use polars_compute::select::{select_is_safe, select_rows};
use sel_arrow::array::Array;
use sel_arrow::array_ref::ArrayRef;
use sel_arrow::boolean::BooleanArray;
use sel_arrow::fixed_size_list::FixedSizeListArray;
use sel_arrow::null::NullArray;
use sel_arrow::primitive::IdxArr;
use sel_bits::faults::{Limit, PolarsError, PolarsResult};
use std::alloc::Global;
use std::test::Fail;
use tests_bits::column_fixtures::{column, truths};

// A column as its type, its rows, and the rows that are selected of it.
type Part = (&'static str, &'static str, &'static str);

fn columns_of(alloc: Global, parts: &[Part]) -> Result<Vec<ArrayRef>, Fail> {
    let mut columns = Vec::with_capacity(alloc, parts.len())?;
    let pushed = push_columns(alloc, &mut columns, parts);
    given(columns, pushed)
}

fn push_columns(alloc: Global, columns: &mut Vec<ArrayRef>, parts: &[Part]) -> Result<(), Fail> {
    for (dtype, rows, _) in parts {
        columns.push(parsed(alloc, *dtype, *rows)?)?;
    }
    Ok(())
}

// Returns the columns if nothing failed, and drops them else.
fn given(columns: Vec<ArrayRef>, pushed: Result<(), Fail>) -> Result<Vec<ArrayRef>, Fail> {
    match pushed {
        Ok(()) => Ok(columns),
        Err(fail) => {
            drop(columns);
            Err(fail)
        }
    }
}

// Returns the selected rows, if the precondition holds.
fn selected_at(
    alloc: Global,
    columns: &[ArrayRef],
    mask: &BooleanArray,
    indices: Result<IdxArr, Fail>,
) -> Result<PolarsResult<Vec<ArrayRef>>, Fail> {
    let indices = indices?;
    if !select_is_safe(columns, mask, &indices) {
        return Err(Fail::from("not safe"));
    }
    Ok(select_rows(alloc, columns, mask, &indices))
}

fn selected(
    alloc: Global,
    columns: &[ArrayRef],
    mask: Result<BooleanArray, Fail>,
    indices: &[Option<u32>],
) -> Result<PolarsResult<Vec<ArrayRef>>, Fail> {
    let mask = mask?;
    let result = selected_at(alloc, columns, &mask, column(alloc, indices, 0));
    drop(mask);
    result
}

// Returns whether the columns print as the last string of each part, and drops the columns.
fn are_rows(alloc: Global, columns: Vec<ArrayRef>, parts: &[Part]) -> Result<bool, Fail> {
    let mut left = columns;
    for (_, _, text) in parts.iter().rev() {
        let Some(last) = left.pop() else {
            drop(left);
            return Ok(false);
        };
        let is_right = prints(alloc, last, *text);
        if !is_right? {
            drop(left);
            return Ok(false);
        }
    }
    let is_all = left.is_empty();
    drop(left);
    Ok(is_all)
}

#[test]
fn select_rows_of_several_columns(rt: HostRuntime) -> Result<(), Fail> {
    let alloc = rt.alloc();
    let parts = [
        ("utf8", "[\"a\",null,\"c\",\"d\"]", "[\"d\",null,\"a\"]"),
        ("list<i64>", "[[1,2],null,[3],[]]", "[[],null,[1,2]]"),
        (
            "struct<i64,i64>",
            "[(1,5),(2,6),null,(null,8)]",
            "[(null,8),null,(1,5)]",
        ),
    ];
    let columns = columns_of(alloc, &parts)?;
    let mask = truths(alloc, &[true, true, true, true], &[true, false, true, true]);
    let result = selected(alloc, &columns, mask, &[Some(2), None, Some(0)]);
    drop(columns);
    assert!(rt; are_rows(alloc, result??, &parts)?);
    Ok(())
}

#[test]
fn select_rows_of_no_columns(rt: HostRuntime) -> Result<(), Fail> {
    let alloc = rt.alloc();
    let mask = truths(alloc, &[true, true], &[true, false]);
    let result = selected(alloc, &[], mask, &[Some(0), None])?;
    assert!(rt; are_rows(alloc, result?, &[])?);
    Ok(())
}

// Returns whether the precondition holds for columns of these numbers.
fn is_safe(
    alloc: Global,
    rows: &'static str,
    mask: Result<BooleanArray, Fail>,
    indices: &[Option<u32>],
) -> Result<bool, Fail> {
    let mask = mask?;
    let is_safe = is_safe_at(alloc, rows, &mask, column(alloc, indices, 0));
    drop(mask);
    is_safe
}

fn is_safe_at(
    alloc: Global,
    rows: &'static str,
    mask: &BooleanArray,
    indices: Result<IdxArr, Fail>,
) -> Result<bool, Fail> {
    let indices = indices?;
    let columns = columns_of(alloc, &[("i64", rows, "")]);
    let is_safe = are_safe(columns, mask, &indices);
    drop(indices);
    is_safe
}

fn are_safe(
    columns: Result<Vec<ArrayRef>, Fail>,
    mask: &BooleanArray,
    indices: &IdxArr,
) -> Result<bool, Fail> {
    let columns = columns?;
    let is_safe = select_is_safe(&columns, mask, indices);
    drop(columns);
    Ok(is_safe)
}

#[test]
fn select_is_safe_checks_lengths_and_indices(rt: HostRuntime) -> Result<(), Fail> {
    let alloc = rt.alloc();
    let bits: (&[bool], &[bool]) = (&[true, true, true], &[true, false, true]);
    let table: [(&'static str, (&[bool], &[bool]), &[Option<u32>], bool); 5] = [
        ("[1,2,3]", bits, &[Some(1), None, Some(0)], true),
        ("[1,2,3]", bits, &[Some(2)], false),
        ("[1,2]", bits, &[Some(0)], false),
        ("[]", (&[], &[]), &[Some(0)], false),
        ("[]", (&[], &[]), &[None], true),
    ];
    for (rows, (values, validity), indices, wanted) in table {
        let mask = truths(alloc, values, validity);
        assert!(rt; is_safe(alloc, rows, mask, indices)? == wanted, "{rows}");
    }
    Ok(())
}

// Returns a column of one row, a list of 2,147,483,648 nulls.
fn wide_list(alloc: Global) -> Result<Vec<ArrayRef>, Fail> {
    let child = NullArray::try_new(2147483648)?.into_ref();
    let list = FixedSizeListArray::try_new(alloc, 2147483648, 1, child, None)?;
    Ok(vec![in alloc; list.into_ref()]?)
}

#[test]
fn select_rows_exceeds_the_row_limit(rt: HostRuntime) -> Result<(), Fail> {
    let alloc = rt.alloc();
    let columns = wide_list(alloc)?;
    let mask = truths(alloc, &[true], &[true]);
    let result = selected(alloc, &columns, mask, &[Some(0), Some(0)]);
    drop(columns);
    assert!(rt; result?.err() == Some(PolarsError::SizeLimit(Limit::Rows)));
    Ok(())
}
