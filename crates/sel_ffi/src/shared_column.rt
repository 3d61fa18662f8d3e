//! The column of a handle.

ghost use Rattle.std.specs.Prelude.{◌≡◌, ◌≤◌, IfOk, IfErr};
ghost use Rattle.sel_bits.specs.Faults.{IsOutOfMemory};
ghost use Rattle.sel_arrow.specs.Depth.{depth};
ghost use Rattle.sel_arrow.specs.Rows.{type_of};

use sel_arrow::array_ref::ArrayRef;
use sel_bits::faults::{PolarsError, PolarsResult};
use std::alloc::Global;
use std::marker::Model;
use std::sync::Arc;

/// A column that several handles can share, nested at most 128 levels deep.
#[derive(Drop)]
pub struct SharedColumn {
    shared: Arc<ArrayRef>,
}

impl Model for SharedColumn {
    ghost use Rattle.std.specs.Prelude.{◌≤◌};
    ghost use Rattle.std.specs.Arc.{arc_value};
    ghost use Rattle.std.specs.Coded.{codes};
    ghost use Rattle.sel_arrow.specs.contracts.array_ref.ArrayRef as array_ref;
    ghost use Rattle.sel_arrow.specs.declared.array_ref.ArrayRef.{ArrayRef};
    ghost use Rattle.sel_arrow.specs.Depth.{depth};
    ghost use Rattle.sel_arrow.specs.Rows.{type_of};

    ghost Value = { ArrayRef };

    ghost coded = { Prim.hlevel (codes, array_ref.the_row.coded) };

    ghost view = { λ c. arc_value c.shared };

    ghost invariant = { λ c. depth (type_of (arc_value c.shared).column) ≤ 128 };
}

impl SharedColumn {
    /// Shares a column.
    ///
    /// # Requires
    /// The column is nested at most 128 levels deep; check with
    /// [`is_within`](crate::depth::is_within).
    ///
    /// # Errors
    /// `OutOfMemory` if an allocation fails; then the column is freed.
    pub fn new(alloc: Global, column: ArrayRef) -> PolarsResult<SharedColumn>
        requires { depth (type_of column.column) ≤ 128 }
        ensures value { IfOk result (λ shared. shared ≡ column) }
        ensures refusal { IfErr result IsOutOfMemory }
    {
        match Arc::new(alloc, column) {
            Ok(shared) => Ok(SharedColumn { shared }),
            Err(failed) => {
                drop(failed.value);
                Err(PolarsError::OutOfMemory)
            }
        }
    }

    /// Returns the column.
    pub fn column(&self) -> &ArrayRef
        ensures value { result.now ≡ self.now }
        ensures depth { depth (type_of self.now.column) ≤ 128 }
    {
        &self.shared
    }

    /// Returns a second owner of the column; copies nothing.
    ///
    /// # Errors
    /// `OutOfMemory` if the count of owners is full.
    pub fn try_clone(&self) -> PolarsResult<SharedColumn>
        ensures value { IfOk result (λ shared. shared ≡ self.now) }
        ensures refusal { IfErr result IsOutOfMemory }
    {
        match Arc::try_clone(&self.shared) {
            Ok(shared) => Ok(SharedColumn { shared }),
            Err(_) => Err(PolarsError::OutOfMemory),
        }
    }
}
