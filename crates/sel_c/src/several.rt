//! Several columns: flatten and gather rows.

ghost use Rattle.std.specs.Prelude.{◌∷◌, [], All, map};
ghost use Rattle.std.specs.List.{flat_map};
ghost use Rattle.sel_c.specs.Several.{picks_conditions, picks_in, CollectsRows, FlattensColumns};
ghost use Rattle.sel_ffi.specs.Status.{no_column, held_columns, held_rows, held_type, HasColumn};

use crate::calls::several::{PickWords, collect_into, flatten_into};
use sel_ffi::column_ref::ColumnRef;
use sel_ffi::handle::Handle;
use sel_ffi::several::share_all;
use std::alloc::Global;

/// Concatenates columns row by row. Returns in `out`, for each r below `height`, in order,
/// `widths[i]` rows of each column i: those from row `r * widths[i]` on, or, where the column has
/// only `widths[i]` rows, all of them.
///
/// Errors: SEL_ERROR_NO_COLUMN: a column is empty. SEL_ERROR_TYPE_MISMATCH: the columns have
/// different types. SEL_ERROR_LENGTH_MISMATCH: there are no columns, `widths_len` is not
/// `columns_len`, a width is 0, or a column has neither `height * widths[i]` nor `widths[i]` rows.
/// SEL_ERROR_ROW_LIMIT, SEL_ERROR_OFFSET_LIMIT, SEL_ERROR_BUFFER_LIMIT: the result exceeds a size
/// limit.
#[unsafe(no_mangle)]
pub extern "C" fn sel_flatten(
    alloc: Global,
    columns: &[ColumnRef],
    widths: &[usize],
    height: usize,
    out: &mut Handle,
) -> u32
    ensures { FlattensColumns result (map (λ column. held_rows column.tree) columns.now)
        (map (λ column. held_type column.tree) columns.now)
        (flat_map (λ column. held_columns column.tree) columns.now) widths.now height
        ((no_column, All (λ column. HasColumn column.tree) columns.now) ∷ [])
        out.old.tree out.new.tree }
{
    match share_all(alloc, columns) {
        Ok(arrays) => {
            let status = flatten_into(alloc, &arrays, widths, height, out);
            drop(arrays);
            status
        }
        Err(status) => status,
    }
}

/// Returns in `out` the column whose row k is row `picks[k].row` of `sources[picks[k].source]`, or
/// null if bit k of the validity is 0.
///
/// Errors: SEL_ERROR_NO_COLUMN: a source is empty. SEL_ERROR_TOO_MANY_ROWS: more than 4,294,967,295
/// picks. SEL_ERROR_VALIDITY_LENGTH: the validity is too short. SEL_ERROR_LENGTH_MISMATCH: there
/// are no sources. SEL_ERROR_TYPE_MISMATCH: the sources have different types.
/// SEL_ERROR_INDEX_OUT_OF_BOUNDS: the source or the row of a pick that is not null is out of
/// bounds. SEL_ERROR_ROW_LIMIT, SEL_ERROR_OFFSET_LIMIT, SEL_ERROR_BUFFER_LIMIT: the result exceeds
/// a size limit.
#[unsafe(no_mangle)]
pub extern "C" fn sel_collect_rows(
    alloc: Global,
    sources: &[ColumnRef],
    picks: &[PickWords],
    bits: &[u8],
    has_bits: bool,
    out: &mut Handle,
) -> u32
    ensures { CollectsRows result (map (λ source. held_rows source.tree) sources.now)
        (map (λ source. held_type source.tree) sources.now)
        (flat_map (λ source. held_columns source.tree) sources.now)
        (picks_in picks.now bits.now has_bits)
        ((no_column, All (λ source. HasColumn source.tree) sources.now) ∷
        picks_conditions picks.now bits.now has_bits) out.old.tree out.new.tree }
{
    match share_all(alloc, sources) {
        Ok(arrays) => {
            let status = collect_into(alloc, &arrays, picks, bits, has_bits, out);
            drop(arrays);
            status
        }
        Err(status) => status,
    }
}
