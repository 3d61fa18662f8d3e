//! The parts of copies with failing allocations: items, runs, validities and the rows of views.

use crate::column_fixtures::one_buffer;
use crate::fixtures::{both, buffer, has_bits, is_done, is_validity, same};
use crate::marks::{begins, ends_by};
use crate::row_refs::{is_run, is_run_of_nulls};
use sel_arrow::array::Array;
use sel_arrow::binview::BinaryViewArray;
use sel_arrow::utf8view::Utf8ViewArray;
use sel_arrow::view::View;
use sel_bits::bitmap::Bitmap;
use sel_bits::block_copy::BlockCopy;
use sel_bits::faults::{PolarsError, PolarsResult};
use sel_bits::packer::BitPacker;
use sel_runs::bits::{push_validity, validity_from};
use sel_runs::row_refs::runs_of_picks;
use sel_runs::runs::{Run, nulls_of, push_run};
use std::alloc::Global;
use std::test::Fail;

// The bytes of the only row of a view column.
const LETTERS: &str = "hhhhhhhhhhhhhh";

/// Returns whether capacity is reserved and a value filled in; a call that is out of memory changes
/// nothing.
fn copies_items(alloc: Global) -> bool {
    let source = [1u8, 2, 3];
    let mut out = BlockCopy::new(alloc, source.as_slice());
    begins(alloc);
    let reserved = out.reserve(1);
    ends_by(alloc, &reserved);
    begins(alloc);
    let filled = out.fill(9, 40);
    ends_by(alloc, &filled);
    let items = out.into_vec();
    let len = if filled.is_ok() { 40 } else { 0 };
    is_done(&reserved) & is_done(&filled) & same(items.as_slice(), &[9u8; 40][..len])
}

/// Returns whether a part is copied; a call that is out of memory changes nothing.
fn copies_part(alloc: Global) -> bool {
    let source = [1u8, 2, 3];
    let mut out = BlockCopy::new(alloc, source.as_slice());
    begins(alloc);
    let copied = out.copy(1, 2);
    ends_by(alloc, &copied);
    let items = out.into_vec();
    let len = if copied.is_ok() { 2 } else { 0 };
    is_done(&copied) & same(items.as_slice(), &[2u8, 3][..len])
}

#[test]
fn block_copy_copies_and_fills(rt: HostRuntime) {
    assert!(rt; copies_items(rt.alloc()));
    assert!(rt; copies_part(rt.alloc()));
}

/// Returns whether the runs are two rows of source 0 from row 1 on, and a null.
fn are_runs(answer: PolarsResult<Vec<Run>>) -> bool {
    match answer {
        Ok(runs) => match runs.as_slice() {
            [first, second] => is_run(first, 0, 1, 2) & is_run_of_nulls(second, 1),
            _ => false,
        },
        Err(fault) => fault == PolarsError::OutOfMemory,
    }
}

#[test]
fn runs_of_row_references(rt: HostRuntime) {
    let alloc = rt.alloc();
    begins(alloc);
    let answer = runs_of_picks(alloc, &[Some((0, 1)), Some((0, 2)), None]);
    ends_by(alloc, &answer);
    assert!(rt; are_runs(answer));
}

/// Returns whether a run is appended to none, or there is still none if the call is out of memory.
fn pushes_run(alloc: Global) -> bool {
    let mut runs = Vec::new(alloc);
    begins(alloc);
    let answer = push_run(&mut runs, nulls_of(2));
    ends_by(alloc, &answer);
    let count = if answer.is_ok() { 1 } else { 0 };
    is_done(&answer) & (runs.len() == count)
}

#[test]
fn run_is_appended(rt: HostRuntime) {
    assert!(rt; pushes_run(rt.alloc()));
}

/// Returns the validity of two true bits, followed by the last two of three.
fn joins_validities(alloc: Global, bits: &Bitmap) -> PolarsResult<Option<Bitmap>> {
    let mut packer = BitPacker::with_capacity(alloc, 0)?;
    if bits.len() != 3 {
        return Ok(None);
    }
    push_validity(&mut packer, None, 0, 2)?;
    push_validity(&mut packer, Some(bits), 1, 2)?;
    validity_from(packer, 4)
}

#[test]
fn validities_are_concatenated(rt: HostRuntime) -> Result<(), Fail> {
    let alloc = rt.alloc();
    let bits = Bitmap::from_bools(alloc, &[true, false, true])?;
    begins(alloc);
    let answer = joins_validities(alloc, &bits);
    ends_by(alloc, &answer);
    assert!(rt; is_validity(answer, &[true, true, false, true]));
    assert!(rt; has_bits(&bits, &[true, false, true]));
    Ok(())
}

/// Returns whether the bytes of a row are 14 letters, or the call is out of memory.
fn are_letters(answer: PolarsResult<Option<Vec<u8>>>) -> bool {
    match answer {
        Ok(Some(bytes)) => same(bytes.as_slice(), LETTERS.as_bytes()),
        Ok(None) => false,
        Err(fault) => fault == PolarsError::OutOfMemory,
    }
}

/// Returns whether the string of a row is 14 letters, or the call is out of memory.
fn is_text(answer: PolarsResult<Option<String>>) -> bool {
    match answer {
        Ok(Some(text)) => text.as_str() == LETTERS,
        Ok(None) => false,
        Err(fault) => fault == PolarsError::OutOfMemory,
    }
}

fn gets_bytes(alloc: Global, bytes: &BinaryViewArray) -> bool {
    if bytes.len() != 1 {
        return false;
    }
    begins(alloc);
    let answer = bytes.get(alloc, 0);
    ends_by(alloc, &answer);
    are_letters(answer)
}

fn gets_text(alloc: Global, texts: &Utf8ViewArray) -> bool {
    if texts.len() != 1 {
        return false;
    }
    begins(alloc);
    let answer = texts.get(alloc, 0);
    ends_by(alloc, &answer);
    is_text(answer)
}

/// Returns whether a column of one binary view gets its row.
fn gets_letters(alloc: Global, view: View) -> Result<bool, Fail> {
    let data = one_buffer(alloc, LETTERS.as_bytes());
    let (views, data) = both(buffer(alloc, &[view]), data)?;
    let bytes = BinaryViewArray::try_new(views, data, None)?;
    Ok(gets_bytes(alloc, &bytes))
}

/// Returns whether a column of one string view gets its row.
fn gets_string(alloc: Global, view: View) -> Result<bool, Fail> {
    let data = one_buffer(alloc, LETTERS.as_bytes());
    let (views, data) = both(buffer(alloc, &[view]), data)?;
    let texts = Utf8ViewArray::try_new(views, data, None)?;
    Ok(gets_text(alloc, &texts))
}

#[test]
fn row_of_binary_and_string_views(rt: HostRuntime) -> Result<(), Fail> {
    let view = View::new_from_bytes(LETTERS.as_bytes(), 0, 0);
    assert!(rt; gets_letters(rt.alloc(), view)?);
    assert!(rt; gets_string(rt.alloc(), view)?);
    Ok(())
}
