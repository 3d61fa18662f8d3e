//! The functions of the C interface.
#![tactic(auto)]

mod calls;
mod children;
mod choices;
mod dictionaries;
mod filters;
mod fixed;
mod fixed_each;
mod lent_buffers;
mod lent_columns;
mod lists;
mod makers;
mod nested_makers;
mod nested_readers;
mod readers;
mod reverse;
mod selections;
mod several;
mod takes;
mod texts;
mod views;
mod whole;
mod wides;
