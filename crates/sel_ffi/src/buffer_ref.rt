//! Read access to the buffer of a handle.

ghost use Rattle.std.specs.Prelude.{◌≡◌};
ghost use Rattle.std.specs.Option.{MatchOption};
ghost use Rattle.std.specs.declared.option.Option.TheVariants.{None, Some};
ghost use Rattle.sel_ffi.specs.Owned.{ref_owns};
ghost use Rattle.sel_ffi.specs.contracts.shared_buffer.SharedBuffer as shared_buffer;
ghost use Rattle.sel_ffi.specs.HeldBuffer.{Held, held_coded};

use crate::shared_buffer::SharedBuffer;
use std::marker::Model;

/// Read access to the buffer of a handle, or to none if the pointer is null.
///
/// It has the layout of [`BufferHandle`](crate::buffer_handle::BufferHandle): C passes the address
/// of a handle as a pointer to const. Any number of calls, on any threads, may read a handle at the
/// same time, as long as no call writes to it.
#[repr(C)]
pub struct BufferRef {
    at: *const u8,
    pub ghost buffer: { Held } by { held_coded },
}

impl Model for BufferRef {
    ghost also_owns = { λ r. ref_owns shared_buffer.the_row r.at r.buffer };
}

impl BufferRef {
    /// Returns the buffer, or none if the handle has none.
    pub fn shared(&self) -> Option<&SharedBuffer>
        ensures { MatchOption result (self.now.buffer ≡ None)
            (λ shared. self.now.buffer ≡ Some shared.now) }
    {
        let at = self.at;
        if at.is_null() {
            None
        } else {
            Some(unsafe { &*(at as *const SharedBuffer) })
        }
    }
}

unsafe impl Send for BufferRef {}

unsafe impl Sync for BufferRef {}
