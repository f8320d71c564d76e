//! Tests of py_imports.
mod bindings;
mod first_words;
