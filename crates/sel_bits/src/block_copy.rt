//! A vector builder that copies slices of one source and counts the copies.

ghost use Rattle.std.specs.Prelude.{◌≡◌, ◌+◌, ◌^◌, ◌<◌, ◌≤◌, [], length, IfErr, OnOk};
ghost use Rattle.sel_bits.specs.Faults.{IsOutOfMemory};
ghost use Rattle.sel_bits.specs.Copying.{after_copy, after_fill};

use crate::faults::{PolarsError, PolarsResult};
use std::alloc::Global;
use std::marker::Model;

/// A vector builder that appends slices of its source and copies of a value, and counts both.
///
/// Contract model: the source, the items so far and the count.
#[derive(Drop)]
pub struct BlockCopy<'a, T: Copy> {
    values: &'a [T],
    items: Vec<T>,
    copies: u64,
}

impl<'a, T: Copy> Model for BlockCopy<'a, T> {
    ghost use Rattle.sel_bits.specs.Copying.{Copying};

    ghost Value = { Copying T };

    ghost view = { λ b. record {
      source = b.values.now;
      items = b.items.items;
      copies = b.copies;
    } };
}

impl<'a, T: Copy> BlockCopy<'a, T> {
    /// Returns an empty builder for this source.
    pub fn new(alloc: Global, values: &'a [T]) -> BlockCopy<'a, T>
        ensures { result ≡ record { source = values.now; items = []; copies = 0 } }
    {
        BlockCopy {
            values,
            items: Vec::new(alloc),
            copies: 0,
        }
    }

    /// Returns the number of items of the source.
    pub fn source_len(&self) -> usize
        ensures { result ≡ length self.now.source }
    {
        self.values.len()
    }

    /// Returns the number of copies and fills.
    pub fn copies(&self) -> u64
        ensures { result ≡ self.now.copies }
    {
        self.copies
    }

    /// Reserves capacity for `count` more items; the items and the count are unchanged.
    ///
    /// # Errors
    /// `OutOfMemory` if an allocation fails.
    pub fn reserve(&mut self, count: usize) -> PolarsResult<()>
        ensures unchanged { self.new ≡ self.old }
        ensures refusal { IfErr result IsOutOfMemory }
    {
        self.items.reserve(count)?;
        Ok(())
    }

    /// Appends the `len` items of the source from `at` on, and increments the count.
    ///
    /// # Requires
    /// `at + len` is at most the length of the source, and the count is less than 2^64 - 1.
    ///
    /// # Errors
    /// `OutOfMemory` if an allocation fails; the builder is unchanged.
    pub fn copy(&mut self, at: usize, len: usize) -> PolarsResult<()>
        requires inside { at + len ≤ length self.old.source }
        requires countable { self.old.copies + 1 < 2 ^ 64 }
        ensures copied { OnOk result (self.new ≡ after_copy self.old at len) }
        ensures unchanged { IfErr result (λ _. self.new ≡ self.old) }
        ensures refusal { IfErr result IsOutOfMemory }
    {
        let values = self.values;
        self.items.extend_from_slice(&values[at..at + len])?;
        self.copies += 1;
        Ok(())
    }

    /// Appends `len` copies of a value, and increments the count.
    ///
    /// # Requires
    /// The count is less than 2^64 - 1.
    ///
    /// # Errors
    /// `OutOfMemory` if an allocation fails or the new length overflows; the builder is unchanged.
    pub fn fill(&mut self, value: T, len: usize) -> PolarsResult<()>
        requires countable { self.old.copies + 1 < 2 ^ 64 }
        ensures filled { OnOk result (self.new ≡ after_fill self.old value len) }
        ensures unchanged { IfErr result (λ _. self.new ≡ self.old) }
        ensures refusal { IfErr result IsOutOfMemory }
    {
        let Some(end) = self.items.len().checked_add(len) else {
            return Err(PolarsError::OutOfMemory);
        };
        self.items.resize(end, value)?;
        self.copies += 1;
        Ok(())
    }

    /// Returns the items.
    pub fn into_vec(self) -> Vec<T>
        ensures { result.items ≡ self.entry.items }
    {
        self.items
    }
}
