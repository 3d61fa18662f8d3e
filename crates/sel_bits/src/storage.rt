//! Shared values, in the library's own memory or in lent memory.

ghost use Rattle.std.specs.Prelude.{◌≡◌, IfOk, IfErr};
ghost use Rattle.sel_bits.specs.Storage.{storage_items};

use crate::lent::Lent;
use crate::two_lists::TwoLists;
use std::alloc::{AllocError, Global};
use std::sync::{Arc, ArcSlice};
use std_alloc::vec::Lodged;

/// Values with any number of owners: in a block of the library's own, in lent memory, or at either
/// end of a block with two lists.
#[derive(Drop)]
pub enum Storage<T> {
    Own(ArcSlice<T>),
    Lent(Arc<Vec<T, Lodged>>),
    Front(Arc<TwoLists<T, u8>>),
    Back(Arc<TwoLists<i64, T>>),
}

impl<T: Drop> Storage<T> {
    /// Returns these values in a block of the library's own.
    ///
    /// # Errors
    /// `AllocError` if an allocation fails.
    pub fn from_vec(values: Vec<T>) -> Result<Storage<T>, AllocError>
        ensures { IfOk result (λ storage. storage_items storage ≡ values.items) }
    {
        Ok(Storage::Own(ArcSlice::from_vec(values)?))
    }

    /// Returns these values in the memory where they are.
    ///
    /// # Errors
    /// The lent values, if an allocation fails.
    pub fn from_lent(alloc: Global, values: Lent<T>) -> Result<Storage<T>, Lent<T>>
        ensures items { IfOk result (λ storage. storage_items storage ≡ values.items) }
        ensures refusal { IfErr result (λ lent. lent.items ≡ values.items) }
    {
        match Arc::new(alloc, values.into_vec()) {
            Ok(list) => Ok(Storage::Lent(list)),
            Err(failed) => Err(Lent::of_vec(failed.value)),
        }
    }

    /// Returns the lent values.
    ///
    /// # Errors
    /// The storage, if its values are not lent or have another owner.
    pub fn into_lent(self) -> Result<Lent<T>, Storage<T>>
        ensures items { IfOk result (λ lent. lent.items ≡ storage_items self) }
        ensures refusal { IfErr result (λ storage. storage_items storage ≡ storage_items self) }
    {
        match self {
            Storage::Own(values) => Err(Storage::Own(values)),
            Storage::Lent(list) => match Arc::try_unwrap(list) {
                Ok(list) => Ok(Lent::of_vec(list)),
                Err(list) => Err(Storage::Lent(list)),
            },
            Storage::Front(lists) => Err(Storage::Front(lists)),
            Storage::Back(lists) => Err(Storage::Back(lists)),
        }
    }

    /// Returns the values as a slice.
    pub fn as_slice(&self) -> &[T]
        ensures { result.now ≡ storage_items self.now }
    {
        match self {
            Storage::Own(values) => values.as_slice(),
            Storage::Lent(list) => list.as_ref().as_slice(),
            Storage::Front(lists) => lists.as_ref().front.as_slice(),
            Storage::Back(lists) => lists.as_ref().back.as_slice(),
        }
    }

    /// Returns one more owner of the values.
    ///
    /// # Errors
    /// `AllocError` if the count of owners is full.
    pub fn try_clone(&self) -> Result<Storage<T>, AllocError>
        ensures { IfOk result (λ storage. storage_items storage ≡ storage_items self.now) }
    {
        match self {
            Storage::Own(values) => Ok(Storage::Own(values.clone()?)),
            Storage::Lent(list) => Ok(Storage::Lent(list.clone()?)),
            Storage::Front(lists) => Ok(Storage::Front(lists.clone()?)),
            Storage::Back(lists) => Ok(Storage::Back(lists.clone()?)),
        }
    }
}
