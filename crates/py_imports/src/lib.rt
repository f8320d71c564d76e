//! The import statements of Python's logical lines, and what they bind.
#![tactic(auto)]

mod action_comment;
mod binding;
mod bindings;
mod declaration;
mod error;
mod first_words;
mod items;
pub mod laws;
mod lexeme;
mod lexemes;
mod line_shape;
mod sortable;
mod statement;

pub use action_comment::{ActionComment, says};
pub use binding::{Binding, copy_of_text};
pub use bindings::{bindings_of, has_first_word};
pub use declaration::is_declaration;
pub use error::ImportError;
pub use first_words::FirstWords;
pub use line_shape::Shape;
pub use sortable::{mark_len, shape, shape_of_binding};
