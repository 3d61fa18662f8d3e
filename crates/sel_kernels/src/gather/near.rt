//! Positions of indices of which some are null: an index in a null slot may be out of bounds.

ghost use Rattle.std.specs.Prelude.{◌≡◌, ℕ};
ghost use Rattle.sel_kernels.specs.Steps.{near_place};

/// Returns `place` if it is less than `count`, otherwise 0.
#[inline(always)]
pub(crate) fn near_place(place: u32, count: usize) -> u32
    ensures { result ≡ near_place count place }
{
    if (place as usize) < count { place } else { 0 }
}

/// A rule that gives the position to read among `count` rows from an index.
pub(crate) trait PlaceRule {
    ghost position: { ℕ → ℕ → ℕ };

    fn place_at(place: u32, count: usize) -> u32
        ensures { result ≡ position count place };
}

/// The position is the index.
pub(crate) struct Unchanged;

impl PlaceRule for Unchanged {
    ghost position = { λ _ place. place };

    #[inline(always)]
    fn place_at(place: u32, _count: usize) -> u32 {
        place
    }
}

/// The position is the index, or 0 if it is out of bounds, as it may be in a null slot.
pub(crate) struct Near;

impl PlaceRule for Near {
    ghost position = { near_place };

    #[inline(always)]
    fn place_at(place: u32, count: usize) -> u32 {
        near_place(place, count)
    }
}
