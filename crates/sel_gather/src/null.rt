//! Null columns, collected by runs of rows.

ghost use Rattle.std.specs.Prelude.{◌≡◌, ◌≤◌, All, length};
ghost use Rattle.sel_bits.specs.Limits.{max_rows};
ghost use Rattle.sel_arrow.specs.Rows.{rows, type_of, IsWellFormed};
ghost use Rattle.sel_arrow.specs.Shape.{of_null};
ghost use Rattle.sel_arrow.specs.Value.{Null};
ghost use Rattle.sel_runs.specs.Runs.{expand};
ghost use Rattle.sel_gather.specs.Sources.{picked};

use sel_arrow::column::Column;
use sel_arrow::null::NullArray;
use sel_runs::runs::Run;

/// Returns the rows of null columns that runs refer to: `len` nulls.
///
/// # Requires
/// All sources are null columns. The runs have `len` rows in total, at most 2^32 - 1.
pub fn collect_null(sources: &[&Column], runs: &[Run], len: usize) -> Column
    requires alike { All (λ c. type_of c.now ≡ of_null) sources.now }
    requires len { length (expand runs.now) ≡ len }
    requires few { len ≤ max_rows }
    ensures rows { rows result ≡ picked sources.now runs.now }
    ensures dtype { type_of result ≡ of_null }
    ensures formed { IsWellFormed result }
{
    Column::Null(NullArray { length: len })
}
