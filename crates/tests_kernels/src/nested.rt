//! Columns with children: validities that are replaced, conversions that return the column, and
//! checks of types.

use crate::parsed::{fixed_lists, lists, parsed, prints, structs};
use sel_arrow::array::Array;
use sel_arrow::array_ref::ArrayRef;
use sel_arrow::fixed_size_list::FixedSizeListArray;
use sel_arrow::from_column::FromColumn;
use sel_arrow::list::ListArray;
use sel_arrow::structure::StructArray;
use sel_bits::bitmap::Bitmap;
use sel_text::read_type::parse_dtype;
use std::alloc::Global;
use std::test::Fail;

const LENGTHS: &str = "lengths do not match";

fn lists_with(alloc: Global, bits: Bitmap) -> Result<ArrayRef, Fail> {
    let rows = lists(alloc, "list<i64>", "[[1,2],[],[3]]")?;
    if rows.len() != bits.len() {
        drop(rows);
        return Err(Fail::from(LENGTHS));
    }
    Ok(rows.with_validity(Some(bits)).into_ref())
}

fn fixed_lists_with(alloc: Global, bits: Bitmap) -> Result<ArrayRef, Fail> {
    let rows = fixed_lists(alloc, "fixed<2,i64>", "[[1,2],[3,4],[5,6]]")?;
    if rows.len() != bits.len() {
        drop(rows);
        return Err(Fail::from(LENGTHS));
    }
    Ok(rows.with_validity(Some(bits)).into_ref())
}

fn structs_with(alloc: Global, bits: Bitmap) -> Result<ArrayRef, Fail> {
    let rows = structs(alloc, "struct<i64,bool>", "[(1,true),(2,null),(3,false)]")?;
    if rows.len() != bits.len() {
        drop(rows);
        return Err(Fail::from(LENGTHS));
    }
    Ok(rows.with_validity(Some(bits)).into_ref())
}

#[test]
fn with_validity_replaces_the_nulls(rt: HostRuntime) -> Result<(), Fail> {
    let alloc = rt.alloc();
    let bits = [true, true, false];
    let rows = lists_with(alloc, Bitmap::from_bools(alloc, &bits)?)?;
    assert!(rt; prints(alloc, rows, "[[1,2],[],null]")?);
    let rows = fixed_lists_with(alloc, Bitmap::from_bools(alloc, &bits)?)?;
    assert!(rt; prints(alloc, rows, "[[1,2],[3,4],null]")?);
    let rows = structs_with(alloc, Bitmap::from_bools(alloc, &bits)?)?;
    assert!(rt; prints(alloc, rows, "[(1,true),(2,null),null]")?);
    Ok(())
}

// Returns whether the conversion of a column to another type fails and returns the column.
fn gives_back<A: FromColumn>(alloc: Global, dtype: &str, rows: &str) -> Result<bool, Fail> {
    match parsed(alloc, dtype, rows)?.into_array::<A>() {
        Ok(other) => {
            drop(other.into_ref());
            Ok(false)
        }
        Err(back) => prints(alloc, back, rows),
    }
}

#[test]
fn failed_conversion_returns_the_column(rt: HostRuntime) -> Result<(), Fail> {
    let alloc = rt.alloc();
    assert!(rt; gives_back::<StructArray>(alloc, "list<i64>", "[[1,2],null,[3]]")?);
    assert!(rt; gives_back::<ListArray<i64>>(alloc, "fixed<2,i64>", "[[1,2],null]")?);
    let rows = "[(1,true),(2,null),null]";
    assert!(rt; gives_back::<FixedSizeListArray>(alloc, "struct<i64,bool>", rows)?);
    Ok(())
}

// Returns whether a type accepts the rows as one list.
fn type_accepts(alloc: Global, dtype: &str, row: &ArrayRef) -> bool {
    match parse_dtype(alloc, dtype) {
        Ok(dtype) => {
            let fits = dtype.scalar_fits(row);
            drop(dtype);
            fits
        }
        Err(_) => false,
    }
}

// Returns whether a column of lists accepts the rows as one list.
fn lists_accept(alloc: Global, row: &ArrayRef) -> Result<bool, Fail> {
    let lists = lists(alloc, "list<i64>", "[]")?;
    let fits = lists.scalar_fits(row);
    drop(lists);
    Ok(fits)
}

// Returns whether a column of lists of two rows accepts the rows as one list.
fn fixed_lists_accept(alloc: Global, row: &ArrayRef) -> Result<bool, Fail> {
    let lists = fixed_lists(alloc, "fixed<2,i64>", "[]")?;
    let fits = lists.scalar_fits(row);
    drop(lists);
    Ok(fits)
}

// Returns whether columns of lists and of fixed-size lists, and their types, accept the rows.
fn accept(alloc: Global, row: &ArrayRef) -> Result<(bool, bool, bool, bool), Fail> {
    Ok((
        lists_accept(alloc, row)?,
        fixed_lists_accept(alloc, row)?,
        type_accepts(alloc, "list<i64>", row),
        type_accepts(alloc, "fixed<2,i64>", row),
    ))
}

#[test]
fn scalar_fits_checks_type_and_length(rt: HostRuntime) -> Result<(), Fail> {
    let alloc = rt.alloc();
    for (dtype, row, as_list, as_fixed_list) in [
        ("i64", "[7,8,9]", true, false),
        ("i64", "[8,9]", true, true),
        ("bool", "[true,false]", false, false),
    ] {
        let row = parsed(alloc, dtype, row)?;
        let accepted = accept(alloc, &row);
        let as_struct = type_accepts(alloc, "struct<i64,bool>", &row);
        drop(row);
        let wanted = (as_list, as_fixed_list, as_list, as_fixed_list);
        assert!(rt; accepted? == wanted && !as_struct, "{dtype}");
    }
    Ok(())
}

fn have_same_type(alloc: Global, first: &ArrayRef, second: &str) -> Result<bool, Fail> {
    let second = parsed(alloc, second, "[]")?;
    let is_same = (first.same_dtype(&second), second.same_dtype(first));
    drop(second);
    if is_same.0 != is_same.1 {
        return Err(Fail::from("same_dtype is not symmetric"));
    }
    Ok(is_same.0)
}

#[test]
fn same_dtype_compares_the_whole_type(rt: HostRuntime) -> Result<(), Fail> {
    let alloc = rt.alloc();
    for (first, second, is_same) in [
        ("list<i64>", "list<null>", false),
        ("fixed<2,i64>", "fixed<2,null>", false),
        ("fixed<1,null>", "fixed<2,null>", false),
        ("struct<i64,bool>", "struct<>", false),
        ("list<i64>", "fixed<2,i64>", false),
        (
            "list<fixed<2,struct<i64,utf8>>>",
            "list<fixed<2,struct<i64,utf8>>>",
            true,
        ),
    ] {
        let column = parsed(alloc, first, "[]")?;
        let found = have_same_type(alloc, &column, second);
        drop(column);
        assert!(rt; found? == is_same, "{first}, {second}");
    }
    Ok(())
}
