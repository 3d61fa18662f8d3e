//! Nested columns over children that are already collected.

ghost use Rattle.std.specs.Prelude.{◌≡◌, ◌≢◌, ◌≤◌, ◌∷◌, [], All, pos, length, map, IfOk, IfErr};
ghost use Rattle.sel_bits.specs.Faults.{IsOutOfMemory};
ghost use Rattle.sel_bits.specs.Limits.{max_rows};
ghost use Rattle.sel_bits.specs.Offsets.{IsOffsets};
ghost use Rattle.sel_bits.specs.Validity.{Covers, bits_for};
ghost use Rattle.sel_arrow.specs.Rows.{rows, type_of, IsField, IsWellFormed};
ghost use Rattle.sel_arrow.specs.Shape.{of_large_list, of_fixed_size_list, of_null, of_struct, shapes_of};
ghost use Rattle.sel_gather.specs.Children.{joined_items};
ghost use Rattle.sel_gather.specs.Steps.{parts_of};
ghost use Rattle.sel_gather.specs.Ends.{item_ends};
ghost use Rattle.sel_runs.specs.Runs.{expand};
ghost use Rattle.sel_arrow.specs.Value.{Null, validities};
ghost use Rattle.sel_gather.specs.Gathers.{MayGather};
ghost use Rattle.sel_runs.specs.Picks.{pick, PickFits};
ghost use Rattle.sel_gather.specs.Sources.{picked, rows_of};

use crate::validity::{append_validity, collect_validity, gather_validity, room_for_validity};
use sel_arrow::column::Column;
use sel_bits::bitmap::Bitmap;
use sel_bits::bits_behind::BitsBehind;
use sel_bits::faults::PolarsResult;
use sel_bits::offsets::OffsetsBuffer;
use sel_runs::bits::unless_all_true;
use sel_runs::row_refs::Plan;
use sel_runs::runs::Run;
use std::alloc::Global;

/// Returns the lists at the row references of a plan, over their offsets `ends` and their
/// concatenated items `values`.
///
/// # Requires
/// All sources are well-formed list columns whose child has the type of `values`, and every
/// non-null row reference refers to a row of a source. `values` is well-formed and has the items of
/// these lists, in order; `ends` has a 0 and the end of each list.
///
/// # Errors
/// `OutOfMemory` if an allocation fails.
pub fn lists_over<P: Plan>(
    alloc: Global,
    values: Column,
    ends: Vec<i64>,
    sources: &[&Column],
    plan: &P,
) -> PolarsResult<Column>
    requires lists { All (λ c. type_of c.now ≡ of_large_list (type_of values)) sources.now }
    requires formed { All (λ c. IsWellFormed c.now) sources.now }
    requires fits { All (PickFits (rows_of sources.now)) (P.picks plan.now) }
    requires ends { ends.items ≡
        map pos (0 ∷ item_ends 0 (pick Null (rows_of sources.now) (P.picks plan.now))) }
    requires below { rows values ≡
        joined_items 0 (pick Null (rows_of sources.now) (P.picks plan.now)) }
    requires child { IsWellFormed values }
    ensures rows { IfOk result (λ column. rows column ≡
        pick Null (rows_of sources.now) (P.picks plan.now)) }
    ensures dtype { IfOk result (λ column. type_of column ≡ of_large_list (type_of values)) }
    ensures formed { IfOk result (λ column. IsWellFormed column) }
    ensures refusal { IfErr result IsOutOfMemory }
{
    // (there are no more row references than a column may have rows)
    let _len = plan.len();
    let values = Box::new(alloc, values)?;
    let (offsets, validity) = offsets_and_validity(alloc, ends, sources, plan)?;
    Ok(Column::LargeList {
        offsets,
        values,
        validity,
    })
}

// Returns the offsets `ends`, and the validity of the rows at the row references of a plan: none if
// all rows are valid. If some may be null, both are in one block of memory. Errors: `OutOfMemory`.
fn offsets_and_validity<P: Plan>(
    alloc: Global,
    mut ends: Vec<i64>,
    sources: &[&Column],
    plan: &P,
) -> PolarsResult<(OffsetsBuffer<i64>, Option<Bitmap>)>
    requires known { All (λ c. type_of c.now ≢ of_null) sources.now }
    requires formed { All (λ c. IsWellFormed c.now) sources.now }
    requires fits { All (PickFits (rows_of sources.now)) (P.picks plan.now) }
    requires rising { IsOffsets (λ n. n) ends.items }
    ensures offsets { IfOk result (λ both. map (λ n. n) ends.items ≡ map pos both.0) }
    ensures bits { IfOk result (λ both. bits_for (length (P.picks plan.now)) both.1 ≡
        validities (pick Null (rows_of sources.now) (P.picks plan.now))) }
    ensures covers { IfOk result (λ both. Covers both.1 (length (P.picks plan.now))) }
    ensures refusal { IfErr result IsOutOfMemory }
{
    let room = room_for_validity(sources, plan);
    if room > 0 {
        ends.reserve_exact(room)?;
        match BitsBehind::new(ends) {
            Ok(behind) => return validity_behind(alloc, behind, sources, plan),
            Err(same) => ends = same,
        }
    }
    let offsets = OffsetsBuffer::of_rising(ends)?;
    let validity = gather_validity(alloc, sources, plan)?;
    Ok((offsets, validity))
}

// Returns the offsets, and the validity of the rows at the row references of a plan behind them.
// Errors: `OutOfMemory`.
fn validity_behind<P: Plan>(
    alloc: Global,
    mut behind: BitsBehind,
    sources: &[&Column],
    plan: &P,
) -> PolarsResult<(OffsetsBuffer<i64>, Option<Bitmap>)>
    requires known { All (λ c. type_of c.now ≢ of_null) sources.now }
    requires formed { All (λ c. IsWellFormed c.now) sources.now }
    requires fits { All (PickFits (rows_of sources.now)) (P.picks plan.now) }
    requires rising { IsOffsets (λ n. n) behind.offsets }
    requires empty { behind.bits ≡ [] }
    ensures offsets { IfOk result (λ both. map (λ n. n) behind.offsets ≡ map pos both.0) }
    ensures bits { IfOk result (λ both. bits_for (length (P.picks plan.now)) both.1 ≡
        validities (pick Null (rows_of sources.now) (P.picks plan.now))) }
    ensures covers { IfOk result (λ both. Covers both.1 (length (P.picks plan.now))) }
    ensures refusal { IfErr result IsOutOfMemory }
{
    let len = plan.len();
    append_validity(alloc, &mut behind, sources, plan)?;
    let (offsets, bits) = behind.finish(alloc, len)?;
    let offsets = OffsetsBuffer::of_rising_buffer(offsets);
    Ok((offsets, unless_all_true(bits, len)))
}

/// Returns the fixed-size lists at the row references of a plan, over their concatenated items
/// `values`.
///
/// # Requires
/// All sources are well-formed fixed-size list columns with list size `size`, at most 2^32 - 1,
/// whose child has the type of `values`, and every non-null row reference refers to a row of a
/// source. `values` is well-formed and has the items of these lists, in order, with `size` nulls
/// for each null list.
///
/// # Errors
/// `OutOfMemory` if an allocation fails.
pub fn blocks_over<P: Plan>(
    alloc: Global,
    size: usize,
    values: Column,
    sources: &[&Column],
    plan: &P,
) -> PolarsResult<Column>
    requires lists { All (λ c. type_of c.now ≡
        of_fixed_size_list (type_of values) size) sources.now }
    requires formed { All (λ c. IsWellFormed c.now) sources.now }
    requires fits { All (PickFits (rows_of sources.now)) (P.picks plan.now) }
    requires narrow { size ≤ max_rows }
    requires below { rows values ≡
        joined_items size (pick Null (rows_of sources.now) (P.picks plan.now)) }
    requires child { IsWellFormed values }
    ensures rows { IfOk result (λ column. rows column ≡
        pick Null (rows_of sources.now) (P.picks plan.now)) }
    ensures dtype { IfOk result (λ column. type_of column ≡
        of_fixed_size_list (type_of values) size) }
    ensures formed { IfOk result (λ column. IsWellFormed column) }
    ensures refusal { IfErr result IsOutOfMemory }
{
    let len = plan.len();
    let values = Box::new(alloc, values)?;
    let validity = gather_validity(alloc, sources, plan)?;
    Ok(Column::FixedSizeList {
        size,
        len,
        values,
        validity,
    })
}

/// Returns the struct rows that runs refer to, over their fields.
///
/// # Requires
/// All sources are well-formed struct columns whose fields have the types of `fields`, and every
/// run is within the rows of its source. The runs have `len` rows in total, at most 2^32 - 1.
/// `fields` are well-formed and have the field values of these rows, in order, with nulls for each
/// null row.
///
/// # Errors
/// `OutOfMemory` if an allocation fails.
pub fn struct_over(
    alloc: Global,
    fields: Vec<Column>,
    sources: &[&Column],
    runs: &[Run],
    len: usize,
) -> PolarsResult<Column>
    requires tuples { All (λ c. type_of c.now ≡
        of_struct (shapes_of (map type_of fields.items))) sources.now }
    requires may { MayGather sources.now (expand runs.now) len }
    requires parts { map rows fields.items ≡
        parts_of (length fields.items) (picked sources.now runs.now) }
    requires fields { All (IsField len) fields.items }
    ensures rows { IfOk result (λ column. rows column ≡ picked sources.now runs.now) }
    ensures dtype { IfOk result (λ column. type_of column ≡
        of_struct (shapes_of (map type_of fields.items))) }
    ensures formed { IfOk result (λ column. IsWellFormed column) }
    ensures refusal { IfErr result IsOutOfMemory }
{
    let validity = collect_validity(alloc, sources, runs, len)?;
    Ok(Column::Struct {
        len,
        fields,
        validity,
    })
}
