//! Finds the imports of a Python text, one by one, and can stop and go on.
#![tactic(auto)]

mod cursor;
mod error;
mod finder;
mod given_keys;
mod key;
mod known;
pub mod laws;
mod options;
mod pauses;
mod pending;
mod pieces;
mod step;
mod take;
mod walker;

pub use cursor::Cursor;
pub use error::{FindError, ResumeError};
pub use finder::Finder;
pub use key::{KeyText, key_of};
pub use options::{FindOptions, ImportKey};
pub use pending::{LineStart, Pending};
pub use pieces::PieceFinder;
pub use walker::{Phase, Position};
