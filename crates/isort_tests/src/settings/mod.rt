//! Tests of isort_settings.
pub(crate) mod lists;
pub(crate) mod pyproject;
