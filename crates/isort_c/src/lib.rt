//! The libraries for C: sorting, checking and listing of a text, the section of a module, and what settings say.
//!
//! A call that makes something fills a buffer of the caller's, and says how many bytes it needs. Settings can be read once and
//! kept: their memory is the library's until the caller gives them back.
#![tactic(auto)]

mod answer;
mod buffer;
mod find;
mod handle;
mod held;
mod kept;
mod key;
mod laws;
mod parts;
mod place;
mod record;
mod settings;
mod sort;
mod stored;

pub use answer::Answer;
pub use find::fihroste_find;
pub use handle::KeptSettings;
pub use kept::{
    fihroste_check_kept, fihroste_place_kept, fihroste_settings_free, fihroste_settings_read,
    fihroste_settings_share, fihroste_settings_unknown, fihroste_sort_kept,
};
pub use key::fihroste_key_name;
pub use laws::numbers_are_fixed;
pub use place::fihroste_place;
pub use settings::fihroste_settings;
pub use sort::{fihroste_check, fihroste_sort};
