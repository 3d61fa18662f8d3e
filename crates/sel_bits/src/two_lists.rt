//! Two lists in one block of memory.

ghost use Rattle.std.specs.Prelude.{◌≡◌, ℕ, ◌+◌, ◌-◌, ◌*◌, ◌^◌, ◌<◌, ◌++◌, List, [], length, vec_len, vec_capacity, IfOk, IfErr, OnOk, OnErr};
ghost use Rattle.std.specs.Int.{bytes_low_first};
ghost use Rattle.std.specs.Vec.{vec_ptr, with_items};
ghost use base.Fml.{ftrue, fex, fall, fwand, fsep, feq};
ghost use denote.RawPtr.{InBlock, ◌+ₚ◌};
ghost use Rattle.sel_bits.specs.Faults.{IsOutOfMemory};
ghost use Rattle.sel_bits.specs.Lying.{LiesAt};
ghost use Rattle.sel_bits.specs.TwoLists.{Places, places_code, both_owned};

use crate::faults::{PolarsError, PolarsResult};
use crate::lent::Lent;
use crate::operations::push_word;
use std::marker::{Move, Owns, PhantomData};
use std::ptr::NonNull;
use std_alloc::vec::Lodged;

/// A list whose memory is lent to two others: its values, and values behind them.
pub struct Carved<F, B> {
    list: Vec<F>,
    behind: PhantomData<B>,
}

impl<F, B> Owns for Carved<F, B> {
    ghost Value = { Places };

    ghost coded = { places_code };

    ghost shr_at = { λ _ _ _. ftrue };
}

impl<F, B> Move for Carved<F, B> {
    ghost own_val = { λ p vs. fex Inside (λ v. fsep (feq ℕ (vec_len v.list) p.len)
        (fall (List F.row.Denot × (ℕ × List B.row.Denot)) (λ t. fwand
        (fsep (feq ℕ (length t.0) p.len) (both_owned F.row B.row p t.0 t.1.0 t.1.1))
        (Fields.own_val (record { list = with_items v.list t.0; behind = v.behind }) vs)))) };
}

unsafe impl<F: Send, B: Send> Send for Carved<F, B> {}

unsafe impl<F, B> Sync for Carved<F, B> {}

/// Values, and other values behind them in the same block of memory.
pub struct TwoLists<F, B> {
    // (the first field, so that it is at the same offset as a shared vector)
    pub(crate) back: Vec<B, Lodged>,
    pub(crate) front: Vec<F, Lodged>,
    carved: Carved<F, B>,
    ghost front_place: { (vec_ptr front ≡ carved.at) × (vec_len front ≡ carved.len) ×
        (vec_capacity front ≡ carved.len) },
    ghost back_place: { (vec_ptr back ≡ carved.behind) × (vec_capacity back ≡ carved.room) },
}

impl TwoLists<i64, u8> {
    /// Returns the list, with an empty list of bytes in its spare capacity.
    ///
    /// # Errors
    /// The list, if it is empty or has no spare capacity.
    pub(crate) fn split(list: Vec<i64>) -> Result<TwoLists<i64, u8>, Vec<i64>>
        ensures front { IfOk result (λ lists. lists.front.items ≡ list.items) }
        ensures back { IfOk result (λ lists. lists.back.items ≡ []) }
        ensures refusal { IfErr result (λ same. same ≡ list) }
    {
        let len = list.len();
        let spare = list.capacity() - len;
        if len == 0 || spare == 0 || spare > usize::MAX / 8 {
            return Err(list);
        }
        let at = list.as_ptr().cast_mut();
        let (front, back, carved) = carve(list, at, len, 8 * spare);
        Ok(TwoLists {
            back: back.into_vec(),
            front: front.into_vec(),
            carved,
        })
    }

    /// Appends the eight bytes of a word to the bytes, lowest first.
    ///
    /// # Errors
    /// `OutOfMemory` if there is no capacity for them; the bytes are unchanged.
    #[inline]
    pub(crate) fn append_bytes(&mut self, word: u64) -> PolarsResult<()>
        ensures appended { OnOk result
            (self.new.back.items ≡ self.old.back.items ++ bytes_low_first 0 8 word) }
        ensures unchanged { OnErr result (self.new.back.items ≡ self.old.back.items) }
        ensures front { self.new.front.items ≡ self.old.front.items }
        ensures refusal { IfErr result IsOutOfMemory }
    {
        if self.back.capacity() - self.back.len() < 8 {
            return Err(PolarsError::OutOfMemory);
        }
        push_word(word, &mut self.back);
        Ok(())
    }
}

impl<F: Drop, B: Drop> Drop for TwoLists<F, B> {
    fn drop(self) {
        let TwoLists {
            back,
            front,
            carved,
        } = self;
        drop(rejoin(Lent::of_vec(front), Lent::of_vec(back), carved));
    }
}

/// Returns the values of a list, and its spare capacity as bytes.
fn carve(
    list: Vec<i64>,
    at: *mut i64,
    len: usize,
    room: usize,
) -> (Lent<i64>, Lent<u8>, Carved<i64, u8>)
    requires { (vec_ptr list ≡ at) × (vec_len list ≡ len) × (0 < len) ×
        (len < vec_capacity list) × (room ≡ 8 * (vec_capacity list - len)) }
    ensures { (result.0.items ≡ list.items) × (result.1.items ≡ []) ×
        LiesAt result.2 result.0 result.1 × (result.1.len ≡ 0) × (result.1.room ≡ room) }
{
    let behind = bytes_behind(at, len);
    (
        Lent { at, len, room: len },
        Lent {
            at: behind,
            len: 0,
            room,
        },
        Carved {
            list,
            behind: PhantomData,
        },
    )
}

/// Returns the address behind `len` values at `at`.
fn bytes_behind(at: *mut i64, len: usize) -> *mut u8
    requires { InBlock at × (len * 8 < 2 ^ 64) }
    ensures { result ≡ at +ₚ len * 8 }
{
    unsafe { NonNull::new_unchecked(at).add(len).cast::<u8>().as_ptr() }
}

/// Returns the list whose memory was lent.
fn rejoin<F, B>(front: Lent<F>, back: Lent<B>, carved: Carved<F, B>) -> Vec<F>
    requires front { (front.at ≡ carved.at) × (front.len ≡ carved.len) ×
        (front.room ≡ carved.len) }
    requires back { (back.at ≡ carved.behind) × (back.room ≡ carved.room) }
    ensures { result.items ≡ front.items }
{
    let Lent {
        at: _,
        len: _,
        room: _,
    } = front;
    let Lent {
        at: _,
        len: _,
        room: _,
    } = back;
    let Carved { list, behind: _ } = carved;
    list
}
