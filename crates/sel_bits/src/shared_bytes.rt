//! Shared bytes of bitmaps.

ghost use Rattle.std.specs.Prelude.{◌≡◌, IfOk, IfErr};
ghost use Rattle.sel_bits.specs.Storage.{shared_bytes, storage_items};

use crate::lent::Lent;
use crate::storage::Storage;
use crate::two_lists::TwoLists;
use std::alloc::{AllocError, Global};
use std::sync::{Arc, ArcSlice};
use std_alloc::vec::Lodged;

/// Bytes with any number of owners: in a block of the library's own, in lent memory, or behind
/// offsets in the same block.
///
/// In all three the slice is at the same offset of the shared value, so that a read needs no branch
/// on the variant.
#[derive(Drop)]
pub enum SharedBytes {
    Own(ArcSlice<u8>),
    Lent(Arc<Vec<u8, Lodged>>),
    Behind(Arc<TwoLists<i64, u8>>),
}

impl SharedBytes {
    /// Returns these bytes in a block of the library's own.
    ///
    /// # Errors
    /// `AllocError` if an allocation fails.
    pub fn from_vec(bytes: Vec<u8>) -> Result<SharedBytes, AllocError>
        ensures { IfOk result (λ shared. shared_bytes shared ≡ bytes.items) }
    {
        Ok(SharedBytes::Own(ArcSlice::from_vec(bytes)?))
    }

    /// Returns these bytes in the memory where they are.
    ///
    /// # Errors
    /// The lent bytes, if an allocation fails.
    pub fn from_lent(alloc: Global, bytes: Lent<u8>) -> Result<SharedBytes, Lent<u8>>
        ensures items { IfOk result (λ shared. shared_bytes shared ≡ bytes.items) }
        ensures refusal { IfErr result (λ lent. lent.items ≡ bytes.items) }
    {
        match Arc::new(alloc, bytes.into_vec()) {
            Ok(list) => Ok(SharedBytes::Lent(list)),
            Err(failed) => Err(Lent::of_vec(failed.value)),
        }
    }

    /// Returns the lent bytes.
    ///
    /// # Errors
    /// The shared bytes, if they are not lent or have another owner.
    pub fn into_lent(self) -> Result<Lent<u8>, SharedBytes>
        ensures items { IfOk result (λ lent. lent.items ≡ shared_bytes self) }
        ensures refusal { IfErr result (λ shared. shared_bytes shared ≡ shared_bytes self) }
    {
        match self {
            SharedBytes::Own(bytes) => Err(SharedBytes::Own(bytes)),
            SharedBytes::Behind(lists) => Err(SharedBytes::Behind(lists)),
            SharedBytes::Lent(list) => match Arc::try_unwrap(list) {
                Ok(list) => Ok(Lent::of_vec(list)),
                Err(list) => Err(SharedBytes::Lent(list)),
            },
        }
    }

    /// Returns the bytes as a slice.
    #[inline]
    pub fn as_slice(&self) -> &[u8]
        ensures { result.now ≡ shared_bytes self.now }
    {
        match self {
            SharedBytes::Own(bytes) => bytes.as_slice(),
            SharedBytes::Lent(list) => list.as_ref().as_slice(),
            SharedBytes::Behind(lists) => lists.as_ref().back.as_slice(),
        }
    }

    /// Returns one more owner of the bytes.
    ///
    /// # Errors
    /// `AllocError` if the count of owners is full.
    pub fn try_clone(&self) -> Result<SharedBytes, AllocError>
        ensures { IfOk result (λ shared. shared_bytes shared ≡ shared_bytes self.now) }
    {
        match self {
            SharedBytes::Own(bytes) => Ok(SharedBytes::Own(bytes.clone()?)),
            SharedBytes::Lent(list) => Ok(SharedBytes::Lent(list.clone()?)),
            SharedBytes::Behind(lists) => Ok(SharedBytes::Behind(lists.clone()?)),
        }
    }

    /// Returns one more owner of the bytes, as the storage of a buffer.
    ///
    /// # Errors
    /// `AllocError` if the count of owners is full.
    pub fn to_storage(&self) -> Result<Storage<u8>, AllocError>
        ensures { IfOk result (λ storage. storage_items storage ≡ shared_bytes self.now) }
    {
        match self {
            SharedBytes::Own(bytes) => Ok(Storage::Own(bytes.clone()?)),
            SharedBytes::Lent(list) => Ok(Storage::Lent(list.clone()?)),
            SharedBytes::Behind(lists) => Ok(Storage::Back(lists.clone()?)),
        }
    }
}
