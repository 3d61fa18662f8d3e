//! A slice of shared values.

ghost use Rattle.std.specs.Prelude.{◌≡◌, ◌+◌, ◌≤◌, length, take, drop, IfOk, IfErr};
ghost use Rattle.sel_bits.specs.Faults.{IsOutOfMemory};
ghost use Rattle.sel_bits.specs.Storage.{IsPart, storage_items};

use crate::faults::PolarsResult;
use crate::lent::Lent;
use crate::storage::Storage;
use std::alloc::Global;
use std::marker::Model;

/// A slice of values that several buffers can share. Contract model: the list of the values.
#[derive(Drop)]
pub struct Buffer<T> {
    shared: Storage<T>,
    start: usize,
    count: usize,
}

impl<T> Model for Buffer<T> {
    ghost use Rattle.std.specs.Prelude.{List, take, drop, length, ◌≤◌, ◌+◌};
    ghost use Rattle.sel_bits.specs.Storage.{storage_items};

    ghost Value = { List T };

    ghost view = { λ b. take b.count (drop b.start (storage_items b.shared)) };

    ghost invariant = { λ b. b.start + b.count ≤ length (storage_items b.shared) };
}

impl<T: Drop> Buffer<T> {
    /// Returns a buffer of these values.
    ///
    /// # Errors
    /// `OutOfMemory` if an allocation fails.
    pub fn from_vec(values: Vec<T>) -> PolarsResult<Buffer<T>>
        ensures items { IfOk result (λ buffer. buffer ≡ values.items) }
        ensures refusal { IfErr result IsOutOfMemory }
    {
        let count = values.len();
        let shared = Storage::from_vec(values)?;
        Ok(Buffer {
            shared,
            start: 0,
            count,
        })
    }

    /// Returns a buffer of the `count` values of `shared` from `start` on.
    ///
    /// # Requires
    /// `shared` has at least `start + count` values.
    pub(crate) fn of_part(shared: Storage<T>, start: usize, count: usize) -> Buffer<T>
        requires { start + count ≤ length (storage_items shared) }
        ensures { result ≡ take count (drop start (storage_items shared)) }
    {
        Buffer {
            shared,
            start,
            count,
        }
    }

    /// Returns a buffer of lent values, without a copy.
    ///
    /// # Errors
    /// The lent values, if an allocation fails.
    pub fn from_lent(alloc: Global, values: Lent<T>) -> Result<Buffer<T>, Lent<T>>
        ensures items { IfOk result (λ buffer. buffer ≡ values.items) }
        ensures refusal { IfErr result (λ lent. lent.items ≡ values.items) }
    {
        let shared = Storage::from_lent(alloc, values)?;
        let count = shared.as_slice().len();
        Ok(Buffer::of_part(shared, 0, count))
    }

    /// Returns the lent values, of which the buffer's are a part.
    ///
    /// # Errors
    /// The buffer, if its values are not lent or have another owner.
    pub fn into_lent(self) -> Result<Lent<T>, Buffer<T>>
        ensures items { IfOk result (λ lent. IsPart self lent.items) }
        ensures refusal { IfErr result (λ buffer. buffer ≡ self) }
    {
        let Buffer {
            shared,
            start,
            count,
        } = self;
        match shared.into_lent() {
            Ok(lent) => Ok(lent),
            Err(shared) => Err(Buffer::of_part(shared, start, count)),
        }
    }

    /// Returns the values as a slice.
    pub fn as_slice(&self) -> &[T]
        ensures { result.now ≡ self.now }
    {
        let all = self.shared.as_slice();
        &all[self.start..self.start + self.count]
    }

    /// Returns the number of values.
    pub fn len(&self) -> usize
        ensures { result ≡ length self.now }
    {
        self.count
    }

    /// Returns the `len` values from `off` on, without a copy.
    ///
    /// # Requires
    /// `off + len` is at most the length.
    #[tactic(auto, using(crate::proofs::Parts::parts))]
    pub fn sliced(self, off: usize, len: usize) -> Buffer<T>
        requires { off + len ≤ length self }
        ensures { result ≡ take len (drop off self) }
    {
        Buffer {
            shared: self.shared,
            start: self.start + off,
            count: len,
        }
    }

    /// Returns a buffer of the same values, without a copy.
    ///
    /// # Errors
    /// `OutOfMemory` if the slice cannot be shared once more.
    pub fn try_clone(&self) -> PolarsResult<Buffer<T>>
        ensures items { IfOk result (λ buffer. buffer ≡ self.now) }
        ensures refusal { IfErr result IsOutOfMemory }
    {
        let shared = self.shared.try_clone()?;
        Ok(Buffer {
            shared,
            start: self.start,
            count: self.count,
        })
    }
}
