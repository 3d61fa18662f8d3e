//! The handle through which a C caller owns a column.

ghost use Rattle.std.specs.Prelude.{◌≡◌};
ghost use Rattle.std.specs.Option.{MatchOption};
ghost use Rattle.std.specs.declared.option.Option.TheVariants.{None, Some};
ghost use Rattle.sel_ffi.specs.contracts.shared_column.SharedColumn as shared_column;
ghost use Rattle.sel_ffi.specs.Held.{Held, held_coded};
ghost use Rattle.sel_ffi.specs.Owned.{held_owns};

use crate::loose::Loose;
use crate::shared_column::SharedColumn;
use std::alloc::Global;
use std::marker::Model;
use std::mem::replace;
use std::ptr::null_mut;

/// An owned column, or none if the pointer is null.
///
/// A caller initializes it to null, may move it, and must not copy it.
#[repr(C)]
pub struct Handle {
    at: *mut u8,
    alloc: Global,
    pub ghost tree: { Held } by { held_coded },
}

impl Model for Handle {
    ghost also_owns = { λ h. held_owns shared_column.the_row h.alloc h.at h.tree };
}

impl Handle {
    /// Returns a handle without a column.
    pub fn empty(alloc: Global) -> Handle
        ensures { result.tree ≡ None }
    {
        Handle {
            at: null_mut(),
            alloc,
        }
    }

    fn of_loose(loose: Loose<SharedColumn, Global>) -> Handle
        ensures { result.tree ≡ Some loose.value }
    {
        let Loose { at, alloc } = loose;
        Handle {
            at: at as *mut u8,
            alloc,
        }
    }

    fn into_loose(self) -> Option<Loose<SharedColumn, Global>>
        ensures { MatchOption result (self.tree ≡ None)
            (λ loose. self.tree ≡ Some loose.value) }
    {
        let Handle { at, alloc } = self;
        if at.is_null() {
            None
        } else {
            Some(Loose {
                at: at as *mut SharedColumn,
                alloc,
            })
        }
    }

    /// Returns a handle that owns `column`.
    pub fn of(column: Box<SharedColumn>) -> Handle
        ensures { result.tree ≡ Some column.value }
    {
        Handle::of_loose(Loose::of(column))
    }

    /// Returns the column, or none if the handle has none.
    pub fn into_box(self) -> Option<Box<SharedColumn>>
        ensures { MatchOption result (self.tree ≡ None)
            (λ column. self.tree ≡ Some column.value) }
    {
        match self.into_loose() {
            None => None,
            Some(loose) => Some(loose.into_box()),
        }
    }

    /// Takes the column out of the handle, which has none afterwards; returns none if it had none.
    pub fn take(&mut self, alloc: Global) -> Option<Box<SharedColumn>>
        ensures taken { self.new.tree ≡ None }
        ensures column { MatchOption result (self.old.tree ≡ None)
            (λ column. self.old.tree ≡ Some column.value) }
    {
        replace(self, Handle::empty(alloc)).into_box()
    }
}

unsafe impl Send for Handle {}

unsafe impl Sync for Handle {}

impl Drop for Handle {
    fn drop(self) {
        drop(self.into_box());
    }
}
