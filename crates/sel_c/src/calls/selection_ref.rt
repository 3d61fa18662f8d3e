//! Read access to the selection of a handle.

ghost use Rattle.std.specs.Prelude.{◌≡◌, Option};
ghost use Rattle.std.specs.Coded.{coded_option};
ghost use Rattle.std.specs.Option.{MatchOption};
ghost use Rattle.std.specs.declared.option.Option.TheVariants.{None, Some};
ghost use Rattle.sel_ffi.specs.Owned.{ref_owns};
ghost use Rattle.sel_kernels.specs.contracts.filter.selection.Selection as owned;
ghost use Rattle.sel_kernels.specs.declared.filter.selection.Selection.{Selection};

use sel_kernels::filter::Selection;
use std::marker::Model;

/// Read access to the selection of a handle, or to none if the pointer is null.
///
/// It has the layout of [`SelectionHandle`](crate::calls::selection_handle::SelectionHandle): C
/// passes the address of a handle as a pointer to const. Any number of calls, on any threads, may
/// read a handle at the same time, as long as no call writes to it.
#[repr(C)]
pub struct SelectionRef {
    at: *const u8,
    pub ghost selection: { Option Selection } by { coded_option owned.the_row.coded },
}

impl Model for SelectionRef {
    ghost also_owns = { λ r. ref_owns owned.the_row r.at r.selection };
}

impl SelectionRef {
    /// Returns the selection, or none if the handle has none.
    pub fn selection(&self) -> Option<&Selection>
        ensures { MatchOption result (self.now.selection ≡ None)
            (λ selection. self.now.selection ≡ Some selection.now) }
    {
        let at = self.at;
        if at.is_null() {
            None
        } else {
            Some(unsafe { &*(at as *const Selection) })
        }
    }
}

unsafe impl Send for SelectionRef {}

unsafe impl Sync for SelectionRef {}
