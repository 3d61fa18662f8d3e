//! The functions of the C interface, on columns taken from their handles.

pub mod children;
pub mod choices;
pub mod dictionaries;
pub mod filters;
pub mod fixed;
pub mod fixed_each;
pub mod lists;
mod picks;
pub mod selection_handle;
pub mod selection_ref;
pub mod selections;
pub mod several;
pub mod takes;
pub mod texts;
pub mod wides;
