//! The line ends of a text.
ghost use Rattle.std.specs.Prelude.{◌≡◌};
ghost use Rattle.isort_sort.specs.Sorted.{first_end};
ghost use Rattle.isort_sort.specs.Private.LineEnd.{end_bytes};

/// A line end (Python Language Reference, 2.1.2).
#[derive(Clone, Copy)]
pub(crate) enum LineEnd {
    /// LF.
    LineFeed,
    /// CR LF.
    ReturnLineFeed,
    /// CR.
    Return,
}

impl LineEnd {
    /// The first line end of a text, or LF where it has none.
    pub(crate) fn first_of(text: &[u8]) -> LineEnd
        ensures { end_bytes result ≡ first_end text.now }
    {
        for (place, byte) in text.iter().enumerate() {
            if *byte == b'\n' {
                return LineEnd::LineFeed;
            }
            if *byte == b'\r' {
                return if place + 1 < text.len() && text[place + 1] == b'\n' {
                    LineEnd::ReturnLineFeed
                } else {
                    LineEnd::Return
                };
            }
        }
        LineEnd::LineFeed
    }

    /// Its characters.
    pub(crate) fn as_str(self) -> &'static str
        ensures { result.now ≡ end_bytes self }
    {
        match self {
            LineEnd::LineFeed => "\n",
            LineEnd::ReturnLineFeed => "\r\n",
            LineEnd::Return => "\r",
        }
    }
}
