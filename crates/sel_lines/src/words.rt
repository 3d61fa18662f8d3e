//! Splitting of a line at a separator.
ghost use Rattle.std.specs.Prelude.{◌≡◌, ◌==◌, ◌+◌, ◌<◌, ◌≤◌, IfOk, map, length, All};
ghost use Rattle.std.specs.List.{slice_split};

use std::alloc::{AllocError, Global};

/// Returns the parts of `text` between separators, at least one.
///
/// # Requires
/// `separator` is an ASCII character.
///
/// # Errors
/// `AllocError` if an allocation fails.
pub fn split_at_each(alloc: Global, text: &str, separator: char) -> Result<Vec<&str>, AllocError>
    requires { separator < 128 }
    ensures parts { IfOk result (λ parts. map (λ part. part.now) parts.items ≡
        slice_split (λ b. b == separator) text.now) }
    ensures count { IfOk result (λ parts. length parts.items ≤ length text.now + 1) }
    ensures lengths { IfOk result (λ parts. All
        (λ part. length part.now ≤ length text.now) parts.items) }
{
    let mut parts = Vec::new(alloc);
    for part in text.split(separator) {
        parts.push(part)?;
    }
    Ok(parts)
}
