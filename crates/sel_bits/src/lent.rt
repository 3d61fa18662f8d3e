//! Values in memory that a caller outside the library has lent.

ghost use Rattle.std.specs.Prelude.{◌≡◌, ◌^◌, ◌<◌, ◌≤◌, List, [], length};
ghost use Rattle.std.specs.Vec.{vec_capacity, vec_len, vec_ptr};
ghost use Rattle.std_alloc.specs.Vec.Ownership.{lodged};

use std::marker::Model;
use std_alloc::vec::{Lodged, lodge};

/// The `len` values at `at`, in memory with room for `room` values.
///
/// Whoever owns it has the sole right to the memory, and never frees it.
#[derive(Drop)]
pub struct Lent<T> {
    pub at: *mut T,
    pub len: usize,
    pub room: usize,
    pub ghost items: { List T },
    pub ghost counted: { (len ≡ length items) × (len ≤ room) },
    pub ghost small: { room < 2 ^ 63 },
}

impl<T> Model for Lent<T> {
    ghost also_owns = { λ l. lodged T.row l.at l.len l.room l.items };
}

impl<T> Lent<T> {
    /// Returns no memory.
    pub fn none() -> Lent<T>
        ensures { result.items ≡ [] }
    {
        Lent::of_vec(Vec::new(Lodged))
    }

    /// Returns the number of values, and the memory.
    pub fn counted(self) -> (usize, Lent<T>)
        ensures count { result.0 ≡ length self.items }
        ensures items { result.1.items ≡ self.items }
    {
        let list = self.into_vec();
        (list.len(), Lent::of_vec(list))
    }

    /// Returns the values as a list that neither grows nor frees them.
    pub(crate) fn into_vec(self) -> Vec<T, Lodged>
        ensures { (result.items ≡ self.items) × (vec_ptr result ≡ self.at) ×
            (vec_len result ≡ self.len) × (vec_capacity result ≡ self.room) }
    {
        let Lent { at, len, room } = self;
        unsafe { lodge(at, len, room) }
    }

    /// Returns the memory of the list.
    pub(crate) fn of_vec(list: Vec<T, Lodged>) -> Lent<T>
        ensures { (result.items ≡ list.items) × (result.at ≡ vec_ptr list) ×
            (result.len ≡ vec_len list) × (result.room ≡ vec_capacity list) }
    {
        let at = list.as_ptr();
        let room = list.capacity();
        Lent::of_vec_at(list, at.cast_mut(), room)
    }

    /// Returns the memory of the list, which is at `at` and has room for `room` values.
    fn of_vec_at(list: Vec<T, Lodged>, at: *mut T, room: usize) -> Lent<T>
        requires { (vec_ptr list ≡ at) × (vec_capacity list ≡ room) }
        ensures { (result.items ≡ list.items) × (result.at ≡ at) ×
            (result.len ≡ vec_len list) × (result.room ≡ room) }
    {
        let len = list.dislodge();
        Lent { at, len, room }
    }
}
