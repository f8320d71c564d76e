//! Tests of py_lines.
mod made;
mod naming;
mod passing;
mod reader;
mod rows;
mod scanner;
mod trial;
