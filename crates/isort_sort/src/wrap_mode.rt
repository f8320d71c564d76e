//! How statements are wrapped.
ghost use Rattle.isort_settings.specs.Values.{values};
ghost use Rattle.isort_sort.specs.Private.Packing.{IsMode};

use isort_settings::Settings;

/// How a statement is wrapped: isort's `multi_line_output`, 0 to 3.
#[derive(Clone, Copy)]
pub(crate) enum WrapMode {
    /// In brackets from the first line on, as many names on each line as fit.
    Grid,
    /// In brackets from the first line on, a name on each line.
    Vertical,
    /// After a backslash, as many names on each line as fit.
    HangingIndent,
    /// A name on each line between the lines of the brackets.
    VerticalHangingIndent,
}

impl WrapMode {
    /// The mode that the settings ask for.
    pub(crate) fn of(settings: &Settings) -> WrapMode
        ensures { IsMode (values settings.now) result }
    {
        match settings.multi_line_output {
            0 => WrapMode::Grid,
            1 => WrapMode::Vertical,
            2 => WrapMode::HangingIndent,
            _ => WrapMode::VerticalHangingIndent,
        }
    }
}
