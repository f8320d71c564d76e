//! Sorting of import statements: the sorted text of a Python text, as isort's settings define it.
#![tactic(auto)]

mod actions;
mod answer;
mod arrange;
mod comment;
mod comparison;
mod finder;
mod group;
pub mod laws;
mod layout;
mod line_end;
mod markers;
mod member;
mod metered;
mod parts;
mod read;
mod row;
mod skip;
mod sort;
mod sorted_text;
mod statement;
mod texts;
mod width;
mod wrap_mode;
mod wrapping;
mod write;

pub use answer::{Block, Outcome, SortError, Sorted};
pub use metered::{Last, MAX_INTERRUPTIONS, Metered};
pub use sort::{blocks, check_code, sort_code, sort_outcome, sort_to};
pub use write::write_whole;
