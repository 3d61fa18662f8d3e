//! Single rows printed, and the bytes of views.

use crate::parsed::parsed;
use sel_arrow::array::Array;
use sel_arrow::array_ref::ArrayRef;
use sel_arrow::binview::{bytes_at, is_view_placed};
use sel_arrow::view::View;
use sel_text::print::row_at;
use std::alloc::Global;
use std::test::Fail;

// Returns whether a row of a column prints as this, and drops the column.
fn row_prints(alloc: Global, column: ArrayRef, row: usize, text: &str) -> Result<bool, Fail> {
    if row >= column.len() {
        drop(column);
        return Err(Fail::from("index out of bounds"));
    }
    let printed = row_at(alloc, column.as_column(), row);
    drop(column);
    Ok(printed?.as_str() == text)
}

// Returns whether the second row of a column prints as this.
fn second_row_prints(alloc: Global, dtype: &str, rows: &str, text: &str) -> Result<bool, Fail> {
    row_prints(alloc, parsed(alloc, dtype, rows)?, 1, text)
}

#[test]
fn one_row_prints(rt: HostRuntime) -> Result<(), Fail> {
    let alloc = rt.alloc();
    for (dtype, rows, text) in [
        ("list<i64>", "[[1],[null,-3]]", "[null,-3]"),
        ("i64", "[1,null]", "null"),
    ] {
        assert!(rt; second_row_prints(alloc, dtype, rows, text)?, "{dtype}");
    }
    Ok(())
}

#[test]
fn bytes_of_inline_view(rt: HostRuntime) -> Result<(), Fail> {
    let view = View::new_from_bytes(b"hello", 0, 0);
    let space = view.inline_space();
    assert!(rt; bytes_at(&[], view, &space) == b"hello".as_slice());
    Ok(())
}

#[test]
fn long_views_need_their_buffer(rt: HostRuntime) {
    assert!(rt; is_view_placed(&[], View::new_from_bytes(b"hello", 9, 9)));
    assert!(rt; !is_view_placed(&[], View::new_from_bytes(b"abcdefghijklm", 0, 0)));
}
