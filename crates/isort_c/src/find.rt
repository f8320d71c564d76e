//! Listing: all imports of a text, as records in the caller's buffer.
ghost use Rattle.std.specs.Prelude.{◌≡◌, []};
ghost use Rattle.isort_find.specs.Finder.{HasFound, finder_text, options_of};
ghost use Rattle.isort_c.specs.Listing.{unique_at, IsListing, list_answer, list_left, AnswersFind};

use crate::answer::{ARGUMENT, Answer, MEMORY, SAME};
use crate::buffer::fill;
use crate::record::push_binding;
use isort_find::{FindError, FindOptions, Finder, ImportKey};
use std::alloc::Global;

/// The key of a number, or none for 0.
fn unique_of(number: u32) -> Result<Option<ImportKey>, Answer>
    ensures { result ≡ unique_at number }
{
    match number {
        0 => Ok(None),
        1 => Ok(Some(ImportKey::Package)),
        2 => Ok(Some(ImportKey::Module)),
        3 => Ok(Some(ImportKey::Attribute)),
        4 => Ok(Some(ImportKey::Alias)),
        _ => Err(Answer::plain(ARGUMENT)),
    }
}

/// Puts the records of all imports that the finder gives from its start on into `records`.
fn list_all(finder: &mut Finder<'_>, records: &mut Vec<u8>) -> Result<(), FindError>
    requires start { HasFound finder.old [] }
    requires none { records.old.items ≡ [] }
    ensures { IsListing (finder_text finder.old) (options_of finder.old) result records.new.items }
{
    'imports: while let Some(binding) = finder.next_import()? {
        push_binding(&binding, records)?;
    }
    Ok(())
}

/// Puts the records of all imports that are found into `records`.
fn list(
    alloc: Global,
    text: &[u8],
    options: FindOptions,
    records: &mut Vec<u8>,
) -> Result<(), FindError>
    requires { records.old.items ≡ [] }
    ensures { IsListing text.now options result records.new.items }
{
    let mut finder = Finder::new(alloc, text, options)?;
    list_all(&mut finder, records)
}

/// Puts the records at the buffer's beginning, where they fit.
fn put(listed: Result<(), FindError>, records: &[u8], out: &mut [u8]) -> Answer
    ensures answer { result ≡ list_answer listed records.now }
    ensures out { out.new ≡ list_left listed records.now out.old }
{
    let mut answer = match listed {
        Ok(()) => Answer::plain(SAME),
        Err(FindError::Fault(fault)) => Answer::at_fault(fault),
        Err(FindError::Memory) => return Answer::plain(MEMORY),
    };
    fill(records, out);
    answer.size = records.len();
    answer
}

/// Lists the imports of the text that are found with the key of this number.
///
/// `SAME`: the records of all imports have `size` bytes; `FAULT`: those of all imports before the fault. They stand at
/// the beginning of `out` where it has so many bytes, and else `out` is as it was. After every other answer it is as it
/// was.
#[unsafe(no_mangle)]
pub extern "C" fn fihroste_find(
    alloc: Global,
    text: &[u8],
    unique: u32,
    top_only: bool,
    out: &mut [u8],
) -> Answer
    ensures { AnswersFind text.now (unique_at unique) top_only result out.old out.new }
{
    let unique = match unique_of(unique) {
        Ok(unique) => unique,
        Err(answer) => return answer,
    };
    let mut records = Vec::new(alloc);
    let listed = list(alloc, text, FindOptions { unique, top_only }, &mut records);
    put(listed, &records, out)
}
