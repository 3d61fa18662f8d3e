//! The true or the false values of an if-then-else by vector operations.

ghost use Rattle.std.specs.Prelude.{◌≡◌, ◌≤◌, ◌<◌, ◌+◌, length, take, drop, get_or};
ghost use Rattle.sel_ternary.specs.SideValues.{side_values};

/// The true or the false values of some rows.
///
/// The loops over sides are inlined where the kind of a side is known, so that no row costs a
/// branch on it.
#[derive(Clone, Copy)]
pub enum Side<'a, T> {
    /// A value for each row.
    Rows(&'a [T]),
    /// A scalar, and the number of rows.
    Scalar(T, usize),
}

impl<'a, T: Copy> Side<'a, T> {
    /// Returns the values of the rows `at .. at + count`.
    #[inline(always)]
    pub(crate) fn part(&self, at: usize, count: usize) -> Side<'a, T>
        requires { at + count ≤ length (side_values self.now) }
        ensures { side_values result ≡ take count (drop at (side_values self.now)) }
    {
        match self {
            Side::Rows(values) => Side::Rows(&values[at..at + count]),
            Side::Scalar(value, _) => Side::Scalar(*value, count),
        }
    }

    /// Returns the value of row `at`.
    #[inline(always)]
    pub(crate) fn value(&self, at: usize) -> T
        requires { at < length (side_values self.now) }
        ensures { result ≡ get_or (side_values self.now) at result }
    {
        match self {
            Side::Rows(values) => entry(values, at),
            Side::Scalar(value, _) => *value,
        }
    }
}

/// Returns entry `at`.
#[inline(always)]
fn entry<T: Copy>(values: &[T], at: usize) -> T
    requires { at < length values.now }
    ensures { result ≡ get_or values.now at result }
{
    values[at]
}
