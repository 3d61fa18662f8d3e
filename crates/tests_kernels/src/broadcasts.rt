//! If-then-else between a typed array and a single value, and between two values.

ghost use Rattle.std.specs.Prelude.{◌≡◌};
ghost use Rattle.sel_arrow.specs.DataType.{shape_of};

use crate::parsed::{fixed_lists, lists, of_type, parsed, returns};
use sel_arrow::array::Array;
use sel_arrow::array_ref::ArrayRef;
use sel_arrow::binview::BinaryViewArray;
use sel_arrow::datatype::ArrowDataType;
use sel_arrow::fixed_size_list::FixedSizeListArray;
use sel_arrow::list::ListArray;
use sel_arrow::utf8view::Utf8ViewArray;
use sel_bits::bitmap::Bitmap;
use sel_bits::faults::PolarsResult;
use sel_ternary::if_then_else::IfThenElseKernel;
use std::alloc::Global;
use std::test::Fail;

const MASK: [bool; 5] = [true, true, false, true, false];

// Returns whether the value is the true rows, and then the false rows, of the result.
fn broadcasts<C: IfThenElseKernel>(
    alloc: Global,
    values: &C,
    scalar: &C::Scalar,
    as_true: &str,
    as_false: &str,
) -> Result<bool, Fail>
    requires { C.fits scalar.now (C.shape values.now) }
{
    let mask = Bitmap::from_bools(alloc, &MASK)?;
    if values.len() != mask.len() {
        return Err(Fail::from("lengths do not match"));
    }
    let made = C::if_then_else_broadcast_true(alloc, &mask, scalar, values);
    if !returns(alloc, made, as_true)? {
        return Ok(false);
    }
    let made = C::if_then_else_broadcast_false(alloc, &mask, values, scalar);
    returns(alloc, made, as_false)
}

// Returns whether the rows between two values are these.
fn broadcasts_both<C: IfThenElseKernel>(
    alloc: Global,
    dtype: ArrowDataType,
    if_true: &C::Scalar,
    if_false: &C::Scalar,
    rows: &str,
) -> Result<bool, Fail>
    requires own { C.is_own (shape_of dtype) }
    requires true_fits { C.fits if_true.now (shape_of dtype) }
    requires false_fits { C.fits if_false.now (shape_of dtype) }
{
    let mask = Bitmap::from_bools(alloc, &MASK)?;
    returns(
        alloc,
        C::if_then_else_broadcast_both(alloc, dtype, &mask, if_true, if_false),
        rows,
    )
}

const BYTES: &str = r#"[h"61",null,h"63",h"6768696a6b6c6d6e6f70717273",h"65"]"#;

const LONG: &[u8; 13] = b"nopqrstuvwxyz";

fn views(alloc: Global) -> Result<BinaryViewArray, Fail> {
    of_type(parsed(alloc, "binview", BYTES)?.into_array::<BinaryViewArray>())
}

fn broadcasts_long_bytes(alloc: Global) -> Result<bool, Fail> {
    let long = Vec::from_slice(alloc, LONG)?;
    let values = views(alloc)?;
    let is_so = broadcasts(
        alloc,
        &values,
        &long,
        r#"[h"6e6f707172737475767778797a",h"6e6f707172737475767778797a",h"63",h"6e6f707172737475767778797a",h"65"]"#,
        r#"[h"61",null,h"6e6f707172737475767778797a",h"6768696a6b6c6d6e6f70717273",h"6e6f707172737475767778797a"]"#,
    );
    drop(values);
    is_so
}

fn broadcasts_two_bytes(alloc: Global) -> Result<bool, Fail> {
    let long = Vec::from_slice(alloc, LONG)?;
    let short = Vec::from_slice(alloc, b"x")?;
    let rows = r#"[h"78",h"78",h"6e6f707172737475767778797a",h"78",h"6e6f707172737475767778797a"]"#;
    broadcasts_both::<BinaryViewArray>(alloc, ArrowDataType::BinaryView, &short, &long, rows)
}

#[test]
fn broadcast_binary_views(rt: HostRuntime) -> Result<(), Fail> {
    let alloc = rt.alloc();
    assert!(rt; broadcasts_long_bytes(alloc)?);
    assert!(rt; broadcasts_two_bytes(alloc)?);
    Ok(())
}

fn texts(alloc: Global) -> Result<Utf8ViewArray, Fail> {
    let rows = r#"["a",null,"c","a string of many bytes","e"]"#;
    of_type(parsed(alloc, "utf8", rows)?.into_array::<Utf8ViewArray>())
}

fn broadcasts_string(alloc: Global) -> Result<bool, Fail> {
    let word = String::from_str(alloc, "word")?;
    let values = texts(alloc)?;
    let as_true = r#"["word","word","c","word","e"]"#;
    let as_false = r#"["a",null,"word","a string of many bytes","word"]"#;
    let is_so = broadcasts(alloc, &values, &word, as_true, as_false);
    drop(values);
    is_so
}

fn broadcasts_two_strings(alloc: Global) -> Result<bool, Fail> {
    let word = String::from_str(alloc, "word")?;
    let other = String::from_str(alloc, "another string of many bytes")?;
    let rows =
        r#"["word","word","another string of many bytes","word","another string of many bytes"]"#;
    broadcasts_both::<Utf8ViewArray>(alloc, ArrowDataType::Utf8View, &word, &other, rows)
}

#[test]
fn broadcast_strings(rt: HostRuntime) -> Result<(), Fail> {
    let alloc = rt.alloc();
    assert!(rt; broadcasts_string(alloc)?);
    assert!(rt; broadcasts_two_strings(alloc)?);
    Ok(())
}

// Returns two columns of numbers.
fn two_columns(alloc: Global, first: &str, second: &str) -> Result<(ArrayRef, ArrayRef), Fail> {
    let first = parsed(alloc, "i64", first)?;
    match parsed(alloc, "i64", second) {
        Ok(second) => Ok((first, second)),
        Err(fail) => {
            drop(first);
            Err(fail)
        }
    }
}

fn broadcasts_lists(
    alloc: Global,
    values: &ListArray<i64>,
    scalar: &ArrayRef,
    other: &ArrayRef,
    as_true: &str,
    as_false: &str,
    both: &str,
) -> Result<bool, Fail> {
    if !values.scalar_fits(scalar) || !values.scalar_fits(other) {
        return Err(Fail::from("the list does not fit"));
    }
    Ok(
        broadcasts(alloc, values, scalar, as_true, as_false)?
            && broadcasts_both::<ListArray<i64>>(alloc, values.dtype(alloc)?, scalar, other, both)?,
    )
}

fn broadcasts_fixed_lists(
    alloc: Global,
    values: &FixedSizeListArray,
    scalar: &ArrayRef,
    other: &ArrayRef,
    as_true: &str,
    as_false: &str,
    both: &str,
) -> Result<bool, Fail> {
    if !values.scalar_fits(scalar) || !values.scalar_fits(other) {
        return Err(Fail::from("the list does not fit"));
    }
    Ok(
        broadcasts(alloc, values, scalar, as_true, as_false)?
            && broadcasts_both::<FixedSizeListArray>(
                alloc,
                values.dtype(alloc)?,
                scalar,
                other,
                both,
            )?,
    )
}

// Returns whether the lists of a column, and two others, are broadcast.
fn broadcasts_two_lists(alloc: Global, values: &ListArray<i64>) -> Result<bool, Fail> {
    let (scalar, other) = two_columns(alloc, "[3,null,3]", "[4]")?;
    let as_true = "[[3,null,3],[3,null,3],[2,null],[3,null,3],[]]";
    let as_false = "[[1],null,[3,null,3],[7],[3,null,3]]";
    let both = "[[3,null,3],[3,null,3],[4],[3,null,3],[4]]";
    let is_so = broadcasts_lists(alloc, values, &scalar, &other, as_true, as_false, both);
    drop(scalar);
    drop(other);
    is_so
}

#[test]
fn broadcast_lists(rt: HostRuntime) -> Result<(), Fail> {
    let values = lists(rt.alloc(), "list<i64>", "[[1],null,[2,null],[7],[]]")?;
    let is_so = broadcasts_two_lists(rt.alloc(), &values);
    drop(values);
    assert!(rt; is_so?);
    Ok(())
}

// Returns whether the lists of a column, and two others, are broadcast.
fn broadcasts_two_fixed_lists(alloc: Global, values: &FixedSizeListArray) -> Result<bool, Fail> {
    let (scalar, other) = two_columns(alloc, "[3,9]", "[null,4]")?;
    let as_true = "[[3,9],[3,9],[2,5],[3,9],[4,5]]";
    let as_false = "[[1,5],null,[3,9],[7,null],[3,9]]";
    let both = "[[3,9],[3,9],[null,4],[3,9],[null,4]]";
    let is_so = broadcasts_fixed_lists(alloc, values, &scalar, &other, as_true, as_false, both);
    drop(scalar);
    drop(other);
    is_so
}

#[test]
fn broadcast_fixed_size_lists(rt: HostRuntime) -> Result<(), Fail> {
    let rows = "[[1,5],null,[2,5],[7,null],[4,5]]";
    let values = fixed_lists(rt.alloc(), "fixed<2,i64>", rows)?;
    let is_so = broadcasts_two_fixed_lists(rt.alloc(), &values);
    drop(values);
    assert!(rt; is_so?);
    Ok(())
}
