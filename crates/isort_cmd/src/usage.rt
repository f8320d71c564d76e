//! Why a command line gives no job.
use crate::message::OUT_OF_MEMORY;
use std::alloc::AllocError;
use std::error::Error;
use std::fmt;

/// Why a command line gives no job.
///
/// It is displayed as the text that the program prints, with its line feed.
#[derive(Debug, Drop)]
pub enum UsageError {
    /// Help was asked for; this is its text.
    Help(String),
    /// The words are not understood; this text says why.
    Refused(String),
    /// Options were given that do not go together.
    Together,
    /// Memory ran out.
    Memory,
}

impl UsageError {
    ghost use Rattle.std.specs.Prelude.{◌≡◌};
    ghost use Rattle.isort_cmd.specs.UsageText.{usage_text};

    /// The text that the program prints, with its line feed.
    pub fn text(&self) -> &str
        ensures { result.now ≡ usage_text self.now }
    {
        match self {
            UsageError::Help(text) | UsageError::Refused(text) => text.as_str(),
            UsageError::Together => "isort: U1 options do not go together\n",
            UsageError::Memory => OUT_OF_MEMORY,
        }
    }
}

impl fmt::Display for UsageError {
    ghost use Rattle.std.specs.Prelude.{Some};
    ghost use Rattle.isort_cmd.specs.UsageText.{usage_text};

    ghost output = { λ e. Some (usage_text e) };

    fn fmt<W: fmt::Write>(&self, f: &mut fmt::Formatter<W>) -> fmt::Result {
        f.write_str(self.text())
    }
}

impl Error for UsageError {}

impl From<AllocError> for UsageError {
    ghost use Rattle.std.specs.Prelude.{◌≡◌};
    ghost use Rattle.isort_cmd.specs.declared.usage.UsageError.TheVariants.{Memory};

    ghost from_gives = { λ _ e. e ≡ Memory };

    fn from(_e: AllocError) -> UsageError {
        UsageError::Memory
    }
}
