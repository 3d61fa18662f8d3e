//! Copies rows from several columns of one type, by runs, level by level.

ghost use Rattle.std.specs.Prelude.{◌≡◌, ◌≤◌, ◌<◌, All, length, map, true, false, IfOk, IfErr};
ghost use Rattle.sel_bits.specs.Limits.{max_rows};
ghost use Rattle.sel_arrow.specs.Rows.{rows, type_of, IsField, IsWellFormed};
ghost use Rattle.sel_arrow.specs.Shape.{of_binary_view, of_utf8_view, of_large_list, of_fixed_size_list, of_struct, shapes_of};
ghost use Rattle.sel_arrow.specs.Value.{Null};
ghost use Rattle.sel_gather.specs.Children.{child, has_children, is_listing, joined_items};
ghost use Rattle.sel_gather.specs.Steps.{child_rows, parts_of};
ghost use Rattle.sel_gather.specs.Need.{IsLimitOrMemory, ExceedsNone, exceeded_in_fields};
ghost use Rattle.sel_runs.specs.Picks.{pick, PickFits};
ghost use Rattle.sel_runs.specs.Runs.{expand};
ghost use Rattle.sel_gather.specs.Gathers.{Collects, MayGather};
ghost use Rattle.sel_gather.specs.Sources.{columns_of, first_type, picked, rows_of};

use crate::binary::gather_binary;
use crate::boolean::gather_boolean;
use crate::list_walk::walk_lists;
use crate::lists::{child_of, child_runs, children_of, count_items};
use crate::match_number_types;
use crate::nested::{blocks_over, lists_over, struct_over};
use crate::null::collect_null;
use crate::primitive::gather_primitive;
use crate::structs::{fields_at, split_runs};
use crate::typed_arrays::{texts_of, views_of};
use crate::view::collect_views;
use sel_arrow::column::Column;
use sel_arrow::null::NullArray;
use sel_arrow::utf8view::Utf8ViewArray;
use sel_bits::faults::{Limit, PolarsError, PolarsResult};
use sel_runs::run_refs::{ListedRuns, RunRefs};
use sel_runs::runs::{NO_ROWS, Run};
use std::alloc::Global;

/// Returns the rows of `sources` that `runs` refer to, in order; a run without a source gives null
/// rows.
///
/// # Requires
/// There is at least one source, and all sources have the type of the first (check with
/// `are_alike`) and are well-formed (check with `are_well_formed`). Every run is within the rows of
/// its source (check with `runs_fit`). The runs have `len` rows in total (`picked_rows`), at most
/// 2^32 - 1.
///
/// # Errors
/// Those of [`collect_rows`].
pub fn collect_runs<'a>(
    alloc: Global,
    sources: &'a [&'a Column],
    runs: &[Run],
    len: usize,
) -> PolarsResult<Column>
    requires some { 0 < length sources.now }
    requires alike { All (λ c. type_of c.now ≡ first_type (columns_of sources.now)) sources.now }
    requires may { MayGather sources.now (expand runs.now) len }
    ensures { Collects result (first_type (columns_of sources.now)) (columns_of sources.now)
        (picked sources.now runs.now) }
{
    let first: &Column = sources[0];
    collect_like(alloc, first, sources, runs, len)
}

// Returns the rows of columns of the type of `first` that runs refer to, `len` in total.
#[cycle(collecting)]
fn collect_like<'a>(
    alloc: Global,
    first: &Column,
    sources: &'a [&'a Column],
    runs: &[Run],
    len: usize,
) -> PolarsResult<Column>
    requires first { IsWellFormed first.now }
    requires alike { All (λ c. type_of c.now ≡ type_of first.now) sources.now }
    requires may { MayGather sources.now (expand runs.now) len }
    ensures { Collects result (type_of first.now) (columns_of sources.now)
        (picked sources.now runs.now) }
{
    match first {
        Column::LargeList { values, .. } => collect_lists(alloc, values, sources, runs, len),
        Column::FixedSizeList { size, values, .. } => {
            collect_blocks(alloc, *size, values, sources, runs, len)
        }
        Column::Struct { fields, .. } => collect_structs(alloc, fields, sources, runs, len),
        _ => collect_leaf(alloc, first, sources, runs, len),
    }
}

// Returns the rows of columns without children that runs refer to; `first` has their type.
//
// Not inlined: the results of its many arms would enlarge the frame of each step of the recursion.
#[inline(never)]
fn collect_leaf<'a>(
    alloc: Global,
    first: &Column,
    sources: &'a [&'a Column],
    runs: &[Run],
    len: usize,
) -> PolarsResult<Column>
    requires leaf { has_children (type_of first.now) ≡ false }
    requires alike { All (λ c. type_of c.now ≡ type_of first.now) sources.now }
    requires may { MayGather sources.now (expand runs.now) len }
    ensures { Collects result (type_of first.now) (columns_of sources.now)
        (picked sources.now runs.now) }
{
    let plan = &RunRefs {
        first: NO_ROWS,
        rest: ListedRuns { runs },
        left: len,
    };
    macro_rules! gather {
        ($number:ty) => {
            gather_primitive::<RunRefs<ListedRuns>, $number>(alloc, sources, plan)
        };
    }
    match_number_types! { first, gather,
        Column::Null(_) => Ok(collect_null(sources, runs, len)),
        Column::Boolean(_) => gather_boolean(alloc, sources, plan),
        Column::LargeBinary(_) => gather_binary(alloc, sources, plan),
        Column::BinaryView(_) => collect_binview(alloc, sources, runs, len),
        Column::Utf8View(_) => collect_utf8view(alloc, sources, runs, len),
        _ => unreachable!(),
    }
}

// Returns the lists that runs refer to; `child` has the type of their items.
#[cycle(collecting)]
#[inline(never)]
fn collect_lists<'a>(
    alloc: Global,
    child: &Column,
    sources: &'a [&'a Column],
    runs: &[Run],
    len: usize,
) -> PolarsResult<Column>
    requires child { IsWellFormed child.now }
    requires alike { All (λ c. type_of c.now ≡ of_large_list (type_of child.now)) sources.now }
    requires may { MayGather sources.now (expand runs.now) len }
    ensures { Collects result (of_large_list (type_of child.now)) (columns_of sources.now)
        (picked sources.now runs.now) }
{
    let plan = RunRefs {
        first: NO_ROWS,
        rest: ListedRuns { runs },
        left: len,
    };
    let (ends, below, need) = walk_lists(alloc, sources, &plan)?;
    let values = collect_children(alloc, child, sources, &below, need)?;
    drop(below);
    let column = lists_over(alloc, values, ends, sources, &plan)?;
    Ok(column)
}

// Returns the child rows of list columns that runs refer to, `len` in total; `first` has their
// type.
#[cycle(collecting)]
#[inline(always)]
pub(crate) fn collect_children<'a>(
    alloc: Global,
    first: &Column,
    sources: &'a [&'a Column],
    runs: &[Run],
    len: usize,
) -> PolarsResult<Column>
    requires first { IsWellFormed first.now }
    requires lists { All (λ c. is_listing (type_of c.now) ≡ true) sources.now }
    requires alike { All (λ c. type_of (child c.now) ≡ type_of first.now) sources.now }
    requires formed { All (λ c. IsWellFormed c.now) sources.now }
    requires fits { All (PickFits (child_rows sources.now)) (expand runs.now) }
    requires len { length (expand runs.now) ≡ len }
    requires few { len ≤ max_rows }
    ensures { Collects result (type_of first.now) (map child (columns_of sources.now))
        (pick Null (child_rows sources.now) (expand runs.now)) }
{
    if let [only] = sources {
        let children = [child_of(*only)];
        return collect_like(alloc, first, &children, runs, len);
    }
    if let [one, other] = sources {
        let both = [child_of(*one), child_of(*other)];
        return collect_like(alloc, first, &both, runs, len);
    }
    let children = children_of(alloc, sources)?;
    collect_like(alloc, first, &children, runs, len)
}

// Returns the fixed-size lists that runs refer to; `child` has the type of their items.
#[cycle(collecting)]
#[inline(never)]
fn collect_blocks<'a>(
    alloc: Global,
    size: usize,
    child: &Column,
    sources: &'a [&'a Column],
    runs: &[Run],
    len: usize,
) -> PolarsResult<Column>
    requires narrow { size ≤ max_rows }
    requires child { IsWellFormed child.now }
    requires alike { All (λ c. type_of c.now ≡
        of_fixed_size_list (type_of child.now) size) sources.now }
    requires may { MayGather sources.now (expand runs.now) len }
    ensures { Collects result (of_fixed_size_list (type_of child.now) size) (columns_of sources.now)
        (picked sources.now runs.now) }
{
    let need = count_items(sources, runs, size as u32);
    if need > u32::MAX as u128 {
        return Err(PolarsError::SizeLimit(Limit::Rows));
    }
    let values = collect_items(alloc, child, sources, runs, size as u32, need as usize)?;
    let plan = RunRefs {
        first: NO_ROWS,
        rest: ListedRuns { runs },
        left: len,
    };
    let column = blocks_over(alloc, size, values, sources, &plan)?;
    Ok(column)
}

// Returns the `need` items of the lists that runs refer to, and `width` nulls for each null list.
//
// The items have the type of `first`. For the null type the result is `need` nulls, and no runs are
// built.
#[cycle(collecting)]
fn collect_items<'a>(
    alloc: Global,
    first: &Column,
    sources: &'a [&'a Column],
    runs: &[Run],
    width: u32,
    need: usize,
) -> PolarsResult<Column>
    requires first { IsWellFormed first.now }
    requires lists { All (λ c. is_listing (type_of c.now) ≡ true) sources.now }
    requires alike { All (λ c. type_of (child c.now) ≡ type_of first.now) sources.now }
    requires formed { All (λ c. IsWellFormed c.now) sources.now }
    requires fits { All (PickFits (rows_of sources.now)) (expand runs.now) }
    requires need { need ≡ length (joined_items width (picked sources.now runs.now)) }
    requires few { need ≤ max_rows }
    ensures { Collects result (type_of first.now) (map child (columns_of sources.now))
        (joined_items width (picked sources.now runs.now)) }
{
    if let Column::Null(_) = first {
        return Ok(Column::Null(NullArray { length: need }));
    }
    let below = child_runs(alloc, sources, runs, width)?;
    collect_children(alloc, first, sources, &below, need)
}

// Returns the struct rows that runs refer to; `firsts` have the types of their fields.
#[cycle(collecting)]
#[inline(never)]
fn collect_structs<'a>(
    alloc: Global,
    firsts: &[Column],
    sources: &'a [&'a Column],
    runs: &[Run],
    len: usize,
) -> PolarsResult<Column>
    requires firsts { All (λ c. IsWellFormed c) firsts.now }
    requires alike { All (λ c. type_of c.now ≡
        of_struct (shapes_of (map type_of firsts.now))) sources.now }
    requires may { MayGather sources.now (expand runs.now) len }
    ensures { Collects result (of_struct (shapes_of (map type_of firsts.now)))
        (columns_of sources.now) (picked sources.now runs.now) }
{
    let fields = collect_fields(alloc, firsts, sources, runs, len)?;
    let column = struct_over(alloc, fields, sources, runs, len)?;
    Ok(column)
}

// Returns the fields of the struct rows that runs refer to; `firsts` have their types.
#[cycle(collecting)]
fn collect_fields<'a>(
    alloc: Global,
    firsts: &[Column],
    sources: &'a [&'a Column],
    runs: &[Run],
    len: usize,
) -> PolarsResult<Vec<Column>>
    requires firsts { All (λ c. IsWellFormed c) firsts.now }
    requires alike { All (λ c. type_of c.now ≡
        of_struct (shapes_of (map type_of firsts.now))) sources.now }
    requires may { MayGather sources.now (expand runs.now) len }
    ensures parts { IfOk result (λ fields. map rows fields.items ≡
        parts_of (length firsts.now) (picked sources.now runs.now)) }
    ensures dtypes { IfOk result (λ fields. map type_of fields.items ≡ map type_of firsts.now) }
    ensures formed { IfOk result (λ fields. All (IsField len) fields.items) }
    ensures within { IfOk result (λ _. ExceedsNone
        (exceeded_in_fields (shapes_of (map type_of firsts.now)) 0
        (columns_of sources.now) (picked sources.now runs.now))) }
    ensures refusal { IfErr result
        (IsLimitOrMemory (exceeded_in_fields (shapes_of (map type_of firsts.now)) 0
        (columns_of sources.now) (picked sources.now runs.now))) }
{
    let split = split_runs(alloc, sources, runs, len)?;
    let count = firsts.len();
    let mut fields = Vec::with_capacity(alloc, count)?;
    for j in 0..count {
        let columns = fields_at(alloc, sources, j)?;
        let field = collect_like(alloc, &firsts[j], &columns, &split, len)?;
        fields.push(field)?;
    }
    Ok(fields)
}

/// Returns the rows of binary view columns that runs refer to.
fn collect_binview<'a>(
    alloc: Global,
    sources: &'a [&'a Column],
    runs: &[Run],
    len: usize,
) -> PolarsResult<Column>
    requires alike { All (λ c. type_of c.now ≡ of_binary_view) sources.now }
    requires may { MayGather sources.now (expand runs.now) len }
    ensures { Collects result of_binary_view (columns_of sources.now)
        (picked sources.now runs.now) }
{
    let found = views_of(alloc, sources)?;
    let array = collect_views(alloc, &found, runs, len)?;
    Ok(Column::BinaryView(array))
}

/// Returns the rows of string view columns that runs refer to.
fn collect_utf8view<'a>(
    alloc: Global,
    sources: &'a [&'a Column],
    runs: &[Run],
    len: usize,
) -> PolarsResult<Column>
    requires alike { All (λ c. type_of c.now ≡ of_utf8_view) sources.now }
    requires may { MayGather sources.now (expand runs.now) len }
    ensures { Collects result of_utf8_view (columns_of sources.now)
        (picked sources.now runs.now) }
{
    let found = texts_of(alloc, sources)?;
    let bytes = collect_views(alloc, &found, runs, len)?;
    Ok(Column::Utf8View(Utf8ViewArray { bytes }))
}
