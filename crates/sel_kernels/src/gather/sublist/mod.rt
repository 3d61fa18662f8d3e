//! Element access for lists and fixed-size lists, as gather indices of child rows.

ghost use Rattle.std.specs.Prelude.{◌≡◌};
ghost use Rattle.sel_kernels.specs.Elements.{child_pick};

mod bare_elements;
pub mod fixed_size_list;
pub mod list;

/// Returns the row reference of a child row, or `None` for a null row.
#[inline(always)]
pub(crate) fn pick_of_place(place: Option<u32>) -> Option<(u32, u32)>
    ensures { result ≡ child_pick place }
{
    match place {
        None => None,
        Some(row) => Some((0, row)),
    }
}
