//! Filters that append the kept values to a vector.

pub use sel_filter::scalar::{scalar_filter, scalar_filter_offset};
