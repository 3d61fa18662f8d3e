//! Rules for the parts of nested columns.

ghost use Rattle.std.specs.Prelude.{◌≡◌};
ghost use Rattle.sel_bits.specs.Offsets.{IsRising};
ghost use Rattle.sel_arrow.specs.Makers.{list_fault, block_fault, struct_length_fault};

use crate::validity::{MOST_ROWS, has_other_length};
use sel_bits::bitmap::Bitmap;
use sel_bits::faults::Malformed;
use sel_bits::native::Offset;
use sel_bits::offsets::OffsetsBuffer;

/// Returns the first rule that lists over a child of `rows` rows break.
pub(crate) fn fault_of_lists<O: Offset>(
    offsets: &OffsetsBuffer<O>,
    rows: usize,
    validity: &Option<Bitmap>,
) -> Option<Malformed>
    ensures fault { result ≡ list_fault offsets.now rows validity.now }
    ensures rising { IsRising offsets.now }
{
    let len = offsets.len_proxy();
    if len > MOST_ROWS {
        Some(Malformed::TooManyRows)
    } else if offsets.at(len) > rows {
        Some(Malformed::OffsetRange)
    } else if has_other_length(validity, len) {
        Some(Malformed::ValidityLength)
    } else {
        None
    }
}

/// Returns the first rule that `len` lists of list size `size` over a child of `rows` rows break.
pub(crate) fn fault_of_blocks(
    size: usize,
    len: usize,
    rows: usize,
    validity: &Option<Bitmap>,
) -> Option<Malformed>
    ensures { result ≡ block_fault size len rows validity.now }
{
    if len > MOST_ROWS {
        Some(Malformed::TooManyRows)
    } else if size > MOST_ROWS {
        Some(Malformed::Width)
    } else if rows != len * size {
        Some(Malformed::ChildLength)
    } else if has_other_length(validity, len) {
        Some(Malformed::ValidityLength)
    } else {
        None
    }
}

/// Returns the first rule that a struct column of `len` rows breaks; `fit` is whether each field
/// has `len` rows.
pub(crate) fn fault_of_struct(len: usize, fit: bool, validity: &Option<Bitmap>) -> Option<Malformed>
    ensures { result ≡ struct_length_fault len fit validity.now }
{
    if len > MOST_ROWS {
        Some(Malformed::TooManyRows)
    } else if !fit {
        Some(Malformed::FieldLength)
    } else if has_other_length(validity, len) {
        Some(Malformed::ValidityLength)
    } else {
        None
    }
}
