//! Gathered integer columns.

ghost use Rattle.std.specs.Prelude.{◌≡◌, All, map, IfOk, IfErr};
ghost use Rattle.std.specs.Option.{option_copied};
ghost use Rattle.sel_bits.specs.Faults.{IsOutOfMemory};
ghost use Rattle.sel_arrow.specs.Masked.{number_rows};
ghost use Rattle.sel_arrow.specs.Rows.{rows, type_of, IsWellFormed};
ghost use Rattle.sel_arrow.specs.Value.{Null};
ghost use Rattle.sel_runs.specs.Picks.{pick, PickFits};
ghost use Rattle.sel_gather.specs.Sources.{rows_of};

use sel_arrow::column::Column;
use sel_arrow::primitive::ArrowPrimitive;
use sel_bits::buffer::Buffer;
use sel_bits::faults::PolarsResult;
use sel_runs::gather_values::gather_parts;
use sel_runs::part::Part;
use sel_runs::row_refs::Plan;
use std::alloc::Global;

/// Matches a column: `$each!(i8)` for 8-bit integers, the same with the type of the integers for
/// those of every other width, and an arm for each other column.
///
/// `$each` is a macro that takes the type: inside a function, it may use the function's variables.
#[macro_export]
macro_rules! match_number_types {
    ($column:expr, $each:ident, $($others:tt)+) => {
        match $column {
            Column::Int8(_) => $each!(i8),
            Column::Int16(_) => $each!(i16),
            Column::Int32(_) => $each!(i32),
            Column::Int64(_) => $each!(i64),
            Column::Int128(_) => $each!(i128),
            Column::UInt8(_) => $each!(u8),
            Column::UInt16(_) => $each!(u16),
            Column::UInt32(_) => $each!(u32),
            Column::UInt64(_) => $each!(u64),
            Column::UInt128(_) => $each!(u128),
            $($others)+
        }
    };
}

/// Returns the values and the validity of each source. Errors: `OutOfMemory`.
fn numbers_of<'a, T: ArrowPrimitive>(
    alloc: Global,
    sources: &'a [&'a Column],
) -> PolarsResult<Vec<Part<'a, T>>>
    requires { All (λ c. type_of c.now ≡ T.shape) sources.now }
    ensures rows { IfOk result (λ found. map (λ s. number_rows T.number s.values.now
        (option_copied s.validity)) found.items ≡ rows_of sources.now) }
    ensures refusal { IfErr result IsOutOfMemory }
{
    let mut found = Vec::with_capacity(alloc, sources.len())?;
    for source in sources {
        found.push(part_of::<T>(*source))?;
    }
    Ok(found)
}

// Returns the values and the validity of a column of integers.
fn part_of<'a, T: ArrowPrimitive>(column: &'a Column) -> Part<'a, T>
    requires { type_of column.now ≡ T.shape }
    ensures { number_rows T.number result.values.now (option_copied result.validity) ≡
        rows column.now }
{
    let Some((values, validity)) = T::of_column(column) else {
        unreachable!()
    };
    Part { values, validity }
}

/// Returns the rows of several columns of one integer type at the row references of `plan`; a null
/// reference gives a null row.
///
/// # Requires
/// All sources have the type of `T`, and every non-null row reference refers to a row of a source.
///
/// # Errors
/// `OutOfMemory` if an allocation fails.
#[inline(always)]
pub fn gather_primitive<'a, P: Plan, T: ArrowPrimitive + Drop + 'a>(
    alloc: Global,
    sources: &'a [&'a Column],
    plan: &P,
) -> PolarsResult<Column>
    requires alike { All (λ c. type_of c.now ≡ T.shape) sources.now }
    requires fits { All (PickFits (rows_of sources.now)) (P.picks plan.now) }
    ensures rows { IfOk result (λ column. rows column ≡
        pick Null (rows_of sources.now) (P.picks plan.now)) }
    ensures dtype { IfOk result (λ column. type_of column ≡ T.shape) }
    ensures formed { IfOk result (λ column. IsWellFormed column) }
    ensures refusal { IfErr result IsOutOfMemory }
{
    if let [only] = sources {
        let part: Part<'a, T> = part_of::<T>(*only);
        let parts: [Part<'a, T>; 1] = [part];
        return gather_numbers(alloc, plan, &parts);
    }
    if let [one, other] = sources {
        let first: Part<'a, T> = part_of::<T>(*one);
        let second: Part<'a, T> = part_of::<T>(*other);
        let parts: [Part<'a, T>; 2] = [first, second];
        return gather_numbers(alloc, plan, &parts);
    }
    let parts = numbers_of::<T>(alloc, sources)?;
    gather_numbers(alloc, plan, &parts)
}

// Returns the rows of several columns of one integer type at the row references of `plan`, given
// their values and validity. Errors: `OutOfMemory`.
fn gather_numbers<P: Plan, T: ArrowPrimitive + Drop>(
    alloc: Global,
    plan: &P,
    parts: &[Part<T>],
) -> PolarsResult<Column>
    requires { All (PickFits (map (λ s. number_rows T.number s.values.now
        (option_copied s.validity)) parts.now)) (P.picks plan.now) }
    ensures rows { IfOk result (λ column. rows column ≡
        pick Null (map (λ s. number_rows T.number s.values.now
        (option_copied s.validity)) parts.now) (P.picks plan.now)) }
    ensures dtype { IfOk result (λ column. type_of column ≡ T.shape) }
    ensures formed { IfOk result (λ column. IsWellFormed column) }
    ensures refusal { IfErr result IsOutOfMemory }
{
    // (there are no more row references than a column may have rows)
    let _len = plan.len();
    let (values, validity) = gather_parts(alloc, plan, parts, T::LEAST)?;
    let values = Buffer::from_vec(values)?;
    Ok(T::into_column(values, validity))
}
