//! If-then-else for up to 64 values by the bits of a word, and by an aligned word reader.

ghost use Rattle.std.specs.Prelude.{◌≡◌, ◌≤◌, length};
ghost use Rattle.sel_bits.specs.Words.{bits};
ghost use Rattle.sel_ternary.specs.Choose.{choose, broadcast_both, broadcast_false};

pub use crate::if_then_else::loops::if_then_else_words;

/// Writes to each `out[i]` the value `if_true[i]` if bit `i` of `mask` is set, else `if_false[i]`.
///
/// # Requires
/// The three slices have the same length, at most 64.
pub fn if_then_else_scalar_rest<T: Copy>(mask: u64, if_true: &[T], if_false: &[T], out: &mut [T])
    requires few { length out.old ≤ 64 }
    requires true_side { length if_true.now ≡ length out.old }
    requires false_side { length if_false.now ≡ length out.old }
    ensures { out.new ≡ choose (bits (length out.old) mask) if_true.now if_false.now }
{
    for i in 0..out.len() {
        let (one, other) = (if_true[i], if_false[i]);
        out[i] = if (mask >> i) & 1 == 1 { one } else { other };
    }
}

/// Writes to each `out[i]` the value `if_true[i]` if bit `i` of `mask` is set, else `if_false`.
///
/// # Requires
/// Both slices have the same length, at most 64.
pub fn if_then_else_broadcast_false_scalar_rest<T: Copy>(
    mask: u64,
    if_true: &[T],
    if_false: T,
    out: &mut [T],
)
    requires few { length out.old ≤ 64 }
    requires true_side { length if_true.now ≡ length out.old }
    ensures { out.new ≡ broadcast_false (bits (length out.old) mask) if_true.now if_false }
{
    for i in 0..out.len() {
        let one = if_true[i];
        out[i] = if (mask >> i) & 1 == 1 { one } else { if_false };
    }
}

/// Writes to each `out[i]` the value `if_true` if bit `i` of `mask` is set, else `if_false`.
///
/// # Requires
/// `out` has at most 64 values.
pub fn if_then_else_broadcast_both_scalar_rest<T: Copy>(
    mask: u64,
    if_true: T,
    if_false: T,
    out: &mut [T],
)
    requires { length out.old ≤ 64 }
    ensures { out.new ≡ broadcast_both (bits (length out.old) mask) if_true if_false }
{
    for i in 0..out.len() {
        out[i] = if (mask >> i) & 1 == 1 {
            if_true
        } else {
            if_false
        };
    }
}

/// Applies `if_then_else_scalar_rest` to 64 values.
pub fn if_then_else_scalar_64<T: Copy>(
    mask: u64,
    if_true: &[T; 64],
    if_false: &[T; 64],
    out: &mut [T; 64],
)
    ensures { out.new ≡ choose (bits 64 mask) if_true.now if_false.now }
{
    if_then_else_scalar_rest(mask, if_true, if_false, out)
}

/// Applies `if_then_else_broadcast_false_scalar_rest` to 64 values.
pub fn if_then_else_broadcast_false_scalar_64<T: Copy>(
    mask: u64,
    if_true: &[T; 64],
    if_false: T,
    out: &mut [T; 64],
)
    ensures { out.new ≡ broadcast_false (bits 64 mask) if_true.now if_false }
{
    if_then_else_broadcast_false_scalar_rest(mask, if_true, if_false, out)
}

/// Applies `if_then_else_broadcast_both_scalar_rest` to 64 values.
pub fn if_then_else_broadcast_both_scalar_64<T: Copy>(
    mask: u64,
    if_true: T,
    if_false: T,
    out: &mut [T; 64],
)
    ensures { out.new ≡ broadcast_both (bits 64 mask) if_true if_false }
{
    if_then_else_broadcast_both_scalar_rest(mask, if_true, if_false, out)
}
