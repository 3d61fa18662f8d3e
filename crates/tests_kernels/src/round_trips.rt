//! Columns printed and parsed again.

use crate::parsed::{parsed, prints};
use sel_arrow::array::Array;
use sel_text::build::NullSlots;
use sel_text::fit::law_round_trip;
use std::test::Fail;

#[test]
fn nested_column_is_parsed_as_it_is_printed(rt: HostRuntime) -> Result<(), Fail> {
    let alloc = rt.alloc();
    let column = parsed(
        alloc,
        "struct<list<i8>, fixed<2, utf8>, binary>",
        r#"[([-128, null, 127], ["a\"\u00e9", "\u0001"], h"00ff"), null, (null, null, h"")]"#,
    )?;
    let again = law_round_trip(alloc, column.as_column(), NullSlots::Zeros);
    drop(column);
    let Ok(again) = again else {
        return Err(Fail::from("not parsed again"));
    };
    let rows = r#"[([-128,null,127],["a\"é","\u0001"],h"00ff"),null,(null,null,h"")]"#;
    assert!(rt; prints(alloc, again, rows)?);
    Ok(())
}
