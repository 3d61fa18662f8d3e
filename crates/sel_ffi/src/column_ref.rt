//! Read access to the column of a handle.

ghost use Rattle.std.specs.Prelude.{◌≡◌, ◌≤◌, IfSome};
ghost use Rattle.std.specs.Option.{MatchOption};
ghost use Rattle.std.specs.declared.option.Option.TheVariants.{None, Some};
ghost use Rattle.sel_arrow.specs.Depth.{depth};
ghost use Rattle.sel_arrow.specs.Rows.{type_of};
ghost use Rattle.sel_ffi.specs.contracts.shared_column.SharedColumn as shared_column;
ghost use Rattle.sel_ffi.specs.Held.{Held, held_coded};
ghost use Rattle.sel_ffi.specs.Owned.{ref_owns};

use crate::shared_column::SharedColumn;
use sel_arrow::array_ref::ArrayRef;
use std::marker::Model;

/// Read access to the column of a handle, or to none if the pointer is null.
///
/// It has the layout of [`Handle`](crate::handle::Handle): C passes the address of a handle as a
/// pointer to const. Any number of calls, on any threads, may read a handle at the same time, as
/// long as no call writes to it.
#[repr(C)]
pub struct ColumnRef {
    at: *const u8,
    pub ghost tree: { Held } by { held_coded },
}

impl Model for ColumnRef {
    ghost also_owns = { λ r. ref_owns shared_column.the_row r.at r.tree };
}

impl ColumnRef {
    /// Returns the shared column, or none if the handle has none.
    pub fn shared(&self) -> Option<&SharedColumn>
        ensures { MatchOption result (self.now.tree ≡ None)
            (λ shared. self.now.tree ≡ Some shared.now) }
    {
        let at = self.at;
        if at.is_null() {
            None
        } else {
            Some(unsafe { &*(at as *const SharedColumn) })
        }
    }

    /// Returns the column, or none if the handle has none.
    pub fn column(&self) -> Option<&ArrayRef>
        ensures column { MatchOption result (self.now.tree ≡ None)
            (λ column. self.now.tree ≡ Some column.now) }
        ensures depth { IfSome result (λ column. depth (type_of column.now.column) ≤ 128) }
    {
        match self.shared() {
            None => None,
            Some(shared) => Some(shared.column()),
        }
    }
}

unsafe impl Send for ColumnRef {}

unsafe impl Sync for ColumnRef {}
