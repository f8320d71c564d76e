//! Tests of isort_find.
pub(crate) mod acts;
mod finder;
mod pieces;
mod scripts;
mod starts;
