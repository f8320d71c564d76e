//! The logical lines of a Python text, with their tokens.
#![tactic(auto)]

mod character;
mod class;
mod fault;
mod feed;
mod frames;
pub mod laws;
mod line_ends;
mod line_scan;
mod line_state;
mod line_tokens;
mod lines;
mod marks;
mod mode;
mod passing;
mod run;
mod scan;
mod scanner;
mod simple_line;
mod source;
mod string_text;
mod token;
mod unit;
mod whole_strings;

pub use fault::{Fault, FaultKind, LexError};
pub use lines::Lines;
pub use scanner::Scanner;
pub use token::{TokKind, Token};
pub use unit::{Line, Unit, UnitKind};
