//! Gathered boolean columns.

ghost use Rattle.std.specs.Prelude.{◌≡◌, ◌↔◌, Some, None, All, false, length, map, IfOk, IfErr};
ghost use Rattle.std.specs.Option.{option_copied};
ghost use Rattle.sel_bits.specs.Faults.{IsOutOfMemory};
ghost use Rattle.sel_arrow.specs.Columns.{boolean_rows};
ghost use Rattle.sel_bits.specs.Validity.{Covers, bits_for};
ghost use Rattle.sel_arrow.specs.Rows.{rows, type_of, IsWellFormed};
ghost use Rattle.sel_arrow.specs.Shape.{of_boolean};
ghost use Rattle.sel_arrow.specs.Value.{Null};
ghost use Rattle.sel_runs.specs.Picks.{pick, PickFits};
ghost use Rattle.sel_runs.specs.Plans.{HasBit, bits_found};
ghost use Rattle.sel_gather.specs.Sources.{rows_of};

use sel_arrow::boolean::BooleanArray;
use sel_arrow::column::Column;
use sel_bits::bitmap::Bitmap;
use sel_bits::faults::PolarsResult;
use sel_bits::packer::BitPacker;
use sel_runs::each::read_each;
use sel_runs::gather_values::{gather_bits, validity_at};
use sel_runs::row_refs::Plan;
use std::alloc::Global;

/// Returns the boolean arrays of the columns. Errors: `OutOfMemory`.
fn booleans_of<'a>(alloc: Global, sources: &'a [&'a Column]) -> PolarsResult<Vec<&'a BooleanArray>>
    requires { All (λ c. type_of c.now ≡ of_boolean) sources.now }
    ensures rows { IfOk result (λ found. map (λ s. boolean_rows s.now) found.items ≡
        rows_of sources.now) }
    ensures refusal { IfErr result IsOutOfMemory }
{
    read_each(alloc, sources, boolean_of)
}

// Returns the array of a boolean column.
fn boolean_of<'a>(column: &'a Column) -> &'a BooleanArray
    requires { type_of column.now ≡ of_boolean }
    ensures { boolean_rows result.now ≡ rows column.now }
{
    let Column::Boolean(array) = column else {
        unreachable!()
    };
    array
}

/// Returns the rows of several boolean columns at the row references of `plan`; a null reference
/// gives a null row.
///
/// # Requires
/// All sources are boolean columns, and every non-null row reference refers to a row of a source.
///
/// # Errors
/// `OutOfMemory` if an allocation fails.
pub fn gather_boolean<'a, P: Plan>(
    alloc: Global,
    sources: &'a [&'a Column],
    plan: &P,
) -> PolarsResult<Column>
    requires alike { All (λ c. type_of c.now ≡ of_boolean) sources.now }
    requires fits { All (PickFits (rows_of sources.now)) (P.picks plan.now) }
    ensures rows { IfOk result (λ column. rows column ≡
        pick Null (rows_of sources.now) (P.picks plan.now)) }
    ensures dtype { IfOk result (λ column. type_of column ≡ of_boolean) }
    ensures formed { IfOk result (λ column. IsWellFormed column) }
    ensures refusal { IfErr result IsOutOfMemory }
{
    if let [only] = sources {
        return gather_truths(alloc, plan, &[boolean_of(*only)]);
    }
    if let [one, other] = sources {
        return gather_truths(alloc, plan, &[boolean_of(*one), boolean_of(*other)]);
    }
    let arrays = booleans_of(alloc, sources)?;
    gather_truths(alloc, plan, &arrays)
}

// Returns the rows of several boolean arrays at the row references of `plan`. Errors:
// `OutOfMemory`.
fn gather_truths<P: Plan>(alloc: Global, plan: &P, arrays: &[&BooleanArray]) -> PolarsResult<Column>
    requires { All (PickFits (map (λ s. boolean_rows s.now) arrays.now)) (P.picks plan.now) }
    ensures rows { IfOk result (λ column. rows column ≡
        pick Null (map (λ s. boolean_rows s.now) arrays.now) (P.picks plan.now)) }
    ensures dtype { IfOk result (λ column. type_of column ≡ of_boolean) }
    ensures formed { IfOk result (λ column. IsWellFormed column) }
    ensures refusal { IfErr result IsOutOfMemory }
{
    let len = plan.len();
    let bits = truths_of(alloc, plan, arrays)?;
    let validity = validity_of(alloc, plan, arrays)?;
    let values = bits.into_bitmap(len)?;
    Ok(Column::Boolean(BooleanArray { values, validity }))
}

// Returns the value at each row reference, false for null references. Errors: `OutOfMemory`.
fn truths_of<P: Plan>(alloc: Global, plan: &P, arrays: &[&BooleanArray]) -> PolarsResult<BitPacker>
    requires { All (HasBit (map (λ s. Some s.now.values) arrays.now)) (P.picks plan.now) }
    ensures bits { IfOk result (λ bits. bits ≡
        bits_found (map (λ s. Some s.now.values) arrays.now) (P.picks plan.now)) }
    ensures refusal { IfErr result IsOutOfMemory }
{
    if let [only] = arrays {
        return gather_bits(alloc, plan, &[Some(&only.values)]);
    }
    if let [one, other] = arrays {
        return gather_bits(alloc, plan, &[Some(&one.values), Some(&other.values)]);
    }
    let maps = values_of(alloc, arrays)?;
    gather_bits(alloc, plan, &maps)
}

// Returns the values bitmap of each source. Errors: `OutOfMemory`.
fn values_of<'a>(
    alloc: Global,
    arrays: &[&'a BooleanArray],
) -> PolarsResult<Vec<Option<&'a Bitmap>>>
    ensures maps { IfOk result (λ maps. map option_copied maps.items ≡
        map (λ s. Some s.now.values) arrays.now) }
    ensures refusal { IfErr result IsOutOfMemory }
{
    read_each(alloc, arrays, |array| Some(&array.values))
}

// Returns the validity of the gathered rows; none if all are valid. Errors: `OutOfMemory`.
fn validity_of<P: Plan>(
    alloc: Global,
    plan: &P,
    arrays: &[&BooleanArray],
) -> PolarsResult<Option<Bitmap>>
    requires { All (HasBit (map (λ s. s.now.validity) arrays.now)) (P.picks plan.now) }
    ensures bits { IfOk result (λ validity. bits_for (length (P.picks plan.now)) validity ≡
        bits_found (map (λ s. s.now.validity) arrays.now) (P.picks plan.now)) }
    ensures covers { IfOk result (λ validity. Covers validity (length (P.picks plan.now))) }
    ensures refusal { IfErr result IsOutOfMemory }
{
    if !plan.has_nulls() && !has_validity(arrays) {
        return Ok(None);
    }
    if let [only] = arrays {
        return validity_at(alloc, plan, &[only.validity.as_ref()]);
    }
    if let [one, other] = arrays {
        return validity_at(
            alloc,
            plan,
            &[one.validity.as_ref(), other.validity.as_ref()],
        );
    }
    let maps = validities_of(alloc, arrays)?;
    validity_at(alloc, plan, &maps)
}

// Returns whether some source has a validity.
fn has_validity(arrays: &[&BooleanArray]) -> bool
    ensures { (result ≡ false) ↔ All (λ s. s.now.validity ≡ None) arrays.now }
{
    arrays.iter().any(|array| array.validity.is_some())
}

// Returns the validity of each source. Errors: `OutOfMemory`.
fn validities_of<'a>(
    alloc: Global,
    arrays: &[&'a BooleanArray],
) -> PolarsResult<Vec<Option<&'a Bitmap>>>
    ensures maps { IfOk result (λ maps. map option_copied maps.items ≡
        map (λ s. s.now.validity) arrays.now) }
    ensures refusal { IfErr result IsOutOfMemory }
{
    read_each(alloc, arrays, |array| array.validity.as_ref())
}
