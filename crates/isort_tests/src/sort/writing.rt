//! Sorting to writers: those that take all, little or nothing, and those that are interrupted.
ghost use Rattle.std.specs.Prelude.{◌≡◌, ◌≤◌, length};
ghost use Rattle.isort_sort.specs.Metered.{last_of};

use isort_settings::Settings;
use isort_sort::{Last, Metered, Outcome, SortError, Sorted, sort_code, sort_to};
use std::alloc::Global;
use std::test::Fail;
use test_harness::cases::{SettingsCase, each_holds_under_settings};
use test_harness::devices::{Device, Trouble};
use test_harness::texts::{SKIPPED, SORTED, UNSORTED};

/// Whether sorting the text to the writer gives this answer, and leaves these bytes in it.
fn leaves(
    alloc: Global,
    settings: &Settings,
    text: &str,
    mut writer: Metered<Device<'_>>,
    want: Result<Outcome, SortError>,
    bytes: &[u8],
) -> bool
    requires { last_of writer ≡ Last.Fine }
{
    let got = sort_to(alloc, text.as_bytes(), settings, &mut writer);
    got == want && writer.into_inner().taken.as_slice() == bytes
}

/// Whether sorting the text to a writer that takes all gives this answer, and these bytes.
pub(crate) fn is_written(
    alloc: Global,
    settings: &Settings,
    text: &str,
    want: Result<Outcome, SortError>,
    bytes: &[u8],
) -> bool {
    let writer = Device::new(alloc, b"", usize::MAX, Trouble::None);
    leaves(alloc, settings, text, writer, want, bytes)
}

/// A text, what sorting it comes to, and the sorted text.
struct Sorting(&'static str, Outcome, &'static str);

impl Sorting {
    /// Whether the text is sorted so in memory.
    fn is_in_memory(&self, alloc: Global, settings: &Settings) -> bool {
        match sort_code(alloc, self.0.as_bytes(), settings) {
            Ok(Sorted::Changed(text)) => text.as_str() == self.2,
            Ok(_) => self.0 == self.2,
            Err(_) => false,
        }
    }

    /// Whether the text is written whole to writers that take one byte a call, and that are interrupted 999 times before
    /// each; and whether one that is interrupted 1000 times is given up.
    fn is_written_slowly(&self, alloc: Global, settings: &Settings) -> bool {
        let bytes = self.2.as_bytes();
        let one = Device::new(alloc, b"", 1, Trouble::Full(bytes.len()));
        let patient = Device::new(alloc, b"", 7, Trouble::Waits(999));
        let stuck = Device::new(alloc, b"", 7, Trouble::Waits(1000));
        leaves(alloc, settings, self.0, one, Ok(self.1), bytes)
            && leaves(alloc, settings, self.0, patient, Ok(self.1), bytes)
            && leaves(alloc, settings, self.0, stuck, Err(SortError::Write), b"")
    }

    /// Whether a writer with less room than the sorted text has bytes gets just those that it has room for, however much
    /// it takes a call.
    fn is_cut_short(&self, alloc: Global, settings: &Settings, room: usize) -> bool
        requires { room ≤ length self.now.2.now }
    {
        let bytes = &self.2.as_bytes()[..room];
        let one = Device::new(alloc, b"", 1, Trouble::Full(room));
        let all = Device::new(alloc, b"", 1000, Trouble::Full(room));
        leaves(alloc, settings, self.0, one, Err(SortError::Write), bytes)
            && leaves(alloc, settings, self.0, all, Err(SortError::Write), bytes)
    }

    fn is_cut_everywhere(&self, alloc: Global, settings: &Settings) -> bool {
        for room in 0..self.2.len() {
            if !self.is_cut_short(alloc, settings, room) {
                return false;
            }
        }
        true
    }
}

impl SettingsCase for Sorting {
    fn holds_under(&self, alloc: Global, settings: &Settings) -> bool {
        self.is_in_memory(alloc, settings)
            && is_written(alloc, settings, self.0, Ok(self.1), self.2.as_bytes())
            && self.is_written_slowly(alloc, settings)
            && self.is_cut_everywhere(alloc, settings)
    }
}

static SORTINGS: &[Sorting] = &[
    Sorting(UNSORTED, Outcome::Changed, SORTED),
    Sorting(SORTED, Outcome::Same, SORTED),
    Sorting(SKIPPED, Outcome::Skipped, SKIPPED),
];

#[test]
fn writes_whole_texts_slowly_and_prefixes_of_every_length(rt: HostRuntime) -> Result<(), Fail> {
    each_holds_under_settings(rt.alloc(), &[("SORTINGS", SORTINGS)])
}
