//! Element access of lists: the rows of the child.

use crate::parsed::{lists, returns};
use polars_compute::gather::sublist::list::sublist_get_indexes;
use sel_arrow::array::Array;
use sel_arrow::list::ListArray;
use std::alloc::Global;
use std::test::Fail;
use tests_bits::column_fixtures::{has_numbers, nulls, offsets};

#[test]
fn sublist_get_indexes_counts_in_the_child(rt: HostRuntime) -> Result<(), Fail> {
    let alloc = rt.alloc();
    for (rows, index, wanted) in [
        ("[[1,2,3],[4,5],[6]]", 0, "[0,3,5]"),
        ("[[1,2,3],[4,5],[6]]", -1, "[2,4,5]"),
        ("[[1,2,3],[4,5],[6]]", 3, "[null,null,null]"),
        (
            "[[1],[1],[3],[4,5,6],[7,8,9],[null,11]]",
            1,
            "[null,null,null,4,7,10]",
        ),
    ] {
        let column = lists(alloc, "list<i64>", rows)?;
        let found = sublist_get_indexes(alloc, &column, index);
        drop(column);
        assert!(rt; returns(alloc, found, wanted)?, "{rows} {index}");
    }
    Ok(())
}

// Returns one list of 4,294,967,295 nulls.
fn longest_list(alloc: Global) -> Result<ListArray<i64>, Fail> {
    let bounds = offsets(alloc, &[0, 4294967295])?;
    Ok(ListArray::try_new(alloc, bounds, nulls(4294967295)?, None)?)
}

#[test]
fn sublist_get_indexes_reaches_the_last_row_of_the_longest_child(
    rt: HostRuntime,
) -> Result<(), Fail> {
    let column = longest_list(rt.alloc())?;
    let found = sublist_get_indexes(rt.alloc(), &column, -1);
    drop(column);
    assert!(rt; has_numbers(&found?, &[Some(4294967294)]));
    Ok(())
}
