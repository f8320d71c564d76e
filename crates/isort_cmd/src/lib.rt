//! The command line of `isort`, and its runs: what they read, what they write, and how they fail.
#![tactic(auto)]

mod arguments;
mod checking;
mod choice;
mod command_line;
mod error;
mod flush;
mod job;
mod line;
mod listing;
mod message;
mod read;
mod reporting;
mod sorting;
mod told;
mod usage;

pub use checking::check_run;
pub use command_line::command;
pub use error::RunError;
pub use isort_find::{FindOptions, ImportKey};
pub use isort_settings::{Profile, Settings, SettingsError};
pub use isort_sort::{Last, Metered, Outcome};
pub use job::{Action, Job, STANDARD_INPUT, Task};
pub use listing::{LIST_CHUNK, identify};
pub use message::{OUT_OF_MEMORY, fault_text, settings_text};
pub use read::read_text;
pub use reporting::report;
pub use sorting::sort_run;
pub use told::Report;
pub use usage::UsageError;
