//! Settings that were read.
use isort_settings::Settings;
use std::sync::Arc;

/// What the text of a `pyproject.toml` stands for, and the names of its unknown keys.
#[derive(Drop)]
pub struct Reading {
    pub settings: Settings,
    pub unknown: Vec<String>,
}

/// A reading that several handles share.
#[derive(Drop)]
pub struct Stored {
    pub reading: Arc<Reading>,
}
