//! The handle through which a C caller owns a buffer.

ghost use Rattle.std.specs.Prelude.{◌≡◌};
ghost use Rattle.std.specs.Option.{MatchOption};
ghost use Rattle.std.specs.declared.option.Option.TheVariants.{None, Some};
ghost use Rattle.sel_ffi.specs.Owned.{held_owns};
ghost use Rattle.sel_ffi.specs.contracts.shared_buffer.SharedBuffer as shared_buffer;
ghost use Rattle.sel_ffi.specs.HeldBuffer.{Held, held_coded};

use crate::loose::Loose;
use crate::shared_buffer::SharedBuffer;
use std::alloc::Global;
use std::marker::Model;
use std::mem::replace;
use std::ptr::null_mut;

/// An owned buffer, or none if the pointer is null.
///
/// A caller initializes it to null, may move it, and must not copy it.
#[repr(C)]
pub struct BufferHandle {
    at: *mut u8,
    alloc: Global,
    pub ghost buffer: { Held } by { held_coded },
}

impl Model for BufferHandle {
    ghost also_owns = { λ h. held_owns shared_buffer.the_row h.alloc h.at h.buffer };
}

impl BufferHandle {
    /// Returns a handle without a buffer.
    pub fn empty(alloc: Global) -> BufferHandle
        ensures { result.buffer ≡ None }
    {
        BufferHandle {
            at: null_mut(),
            alloc,
        }
    }

    fn of_loose(loose: Loose<SharedBuffer, Global>) -> BufferHandle
        ensures { result.buffer ≡ Some loose.value }
    {
        let Loose { at, alloc } = loose;
        BufferHandle {
            at: at as *mut u8,
            alloc,
        }
    }

    fn into_loose(self) -> Option<Loose<SharedBuffer, Global>>
        ensures { MatchOption result (self.buffer ≡ None)
            (λ loose. self.buffer ≡ Some loose.value) }
    {
        let BufferHandle { at, alloc } = self;
        if at.is_null() {
            None
        } else {
            Some(Loose {
                at: at as *mut SharedBuffer,
                alloc,
            })
        }
    }

    /// Returns a handle that owns `buffer`.
    pub fn of(buffer: Box<SharedBuffer>) -> BufferHandle
        ensures { result.buffer ≡ Some buffer.value }
    {
        BufferHandle::of_loose(Loose::of(buffer))
    }

    /// Returns the buffer, or none if the handle has none.
    pub fn into_box(self) -> Option<Box<SharedBuffer>>
        ensures { MatchOption result (self.buffer ≡ None)
            (λ buffer. self.buffer ≡ Some buffer.value) }
    {
        match self.into_loose() {
            None => None,
            Some(loose) => Some(loose.into_box()),
        }
    }

    /// Takes the buffer out of the handle, which has none afterwards; returns none if it had none.
    pub fn take(&mut self, alloc: Global) -> Option<Box<SharedBuffer>>
        ensures taken { self.new.buffer ≡ None }
        ensures buffer { MatchOption result (self.old.buffer ≡ None)
            (λ buffer. self.old.buffer ≡ Some buffer.value) }
    {
        replace(self, BufferHandle::empty(alloc)).into_box()
    }
}

unsafe impl Send for BufferHandle {}

unsafe impl Sync for BufferHandle {}

impl Drop for BufferHandle {
    fn drop(self) {
        drop(self.into_box());
    }
}
