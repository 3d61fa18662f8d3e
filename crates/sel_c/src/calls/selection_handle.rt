//! The handle through which a C caller owns a selection.

ghost use Rattle.std.specs.Prelude.{◌≡◌, Option};
ghost use Rattle.std.specs.Coded.{coded_option};
ghost use Rattle.std.specs.Option.{MatchOption};
ghost use Rattle.std.specs.declared.option.Option.TheVariants.{None, Some};
ghost use Rattle.sel_ffi.specs.Owned.{held_owns};
ghost use Rattle.sel_kernels.specs.contracts.filter.selection.Selection as owned;
ghost use Rattle.sel_kernels.specs.declared.filter.selection.Selection.{Selection};

use sel_ffi::loose::Loose;
use sel_kernels::filter::Selection;
use std::alloc::Global;
use std::marker::Model;
use std::ptr::null_mut;

/// An owned selection, or none if the pointer is null.
///
/// A caller initializes it to null, may move it, and must not copy it.
#[repr(C)]
pub struct SelectionHandle {
    at: *mut u8,
    alloc: Global,
    pub ghost selection: { Option Selection } by { coded_option owned.the_row.coded },
}

impl Model for SelectionHandle {
    ghost also_owns = { λ h. held_owns owned.the_row h.alloc h.at h.selection };
}

impl SelectionHandle {
    /// Returns a handle without a selection.
    pub fn empty(alloc: Global) -> SelectionHandle
        ensures { result.selection ≡ None }
    {
        SelectionHandle {
            at: null_mut(),
            alloc,
        }
    }

    fn of_loose(loose: Loose<Selection, Global>) -> SelectionHandle
        ensures { result.selection ≡ Some loose.value }
    {
        let Loose { at, alloc } = loose;
        SelectionHandle {
            at: at as *mut u8,
            alloc,
        }
    }

    fn into_loose(self) -> Option<Loose<Selection, Global>>
        ensures { MatchOption result (self.selection ≡ None)
            (λ loose. self.selection ≡ Some loose.value) }
    {
        let SelectionHandle { at, alloc } = self;
        if at.is_null() {
            None
        } else {
            Some(Loose {
                at: at as *mut Selection,
                alloc,
            })
        }
    }

    /// Returns a handle that owns `selection`.
    pub fn of(selection: Box<Selection>) -> SelectionHandle
        ensures { result.selection ≡ Some selection.value }
    {
        SelectionHandle::of_loose(Loose::of(selection))
    }

    /// Returns the selection, or none if the handle has none.
    pub fn into_box(self) -> Option<Box<Selection>>
        ensures { MatchOption result (self.selection ≡ None)
            (λ selection. self.selection ≡ Some selection.value) }
    {
        match self.into_loose() {
            None => None,
            Some(loose) => Some(loose.into_box()),
        }
    }
}

unsafe impl Send for SelectionHandle {}

unsafe impl Sync for SelectionHandle {}

impl Drop for SelectionHandle {
    fn drop(self) {
        drop(self.into_box());
    }
}
