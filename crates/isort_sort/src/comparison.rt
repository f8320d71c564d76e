//! A text compared with pieces that come one after another.
ghost use Rattle.std.specs.Prelude.{◌≡◌, ◌≢◌, ◌++◌, ℕ, List, [], is_some, MatchBool};
ghost use Rattle.isort_sort.specs.Private.Compared.{IsCompared, Takes};

/// A text that is compared with pieces, which come one after another.
#[derive(Clone, Copy)]
pub(crate) struct Comparison<'t> {
    /// What follows the pieces in the text; none where it doesn't begin with them.
    left: Option<&'t [u8]>,
}

impl<'t> Comparison<'t> {
    /// The comparison of a text, before the first piece.
    pub(crate) fn of(text: &'t [u8]) -> Comparison<'t>
        ensures { IsCompared text.now [] result }
    {
        Comparison { left: Some(text) }
    }

    /// Takes the next piece.
    pub(crate) fn take(&mut self, piece: &[u8])
        ensures { Takes self.old piece.now self.new }
    {
        let Some(left) = self.left else {
            return;
        };
        self.left = left.strip_prefix(piece);
    }

    /// Whether the text begins with the pieces.
    pub(crate) fn agrees(&self) -> bool
        ensures { result ≡ is_some self.now.left }
    {
        self.left.is_some()
    }

    /// Whether the text is the pieces and this last one.
    pub(crate) fn ends_with(&self, last: &[u8]) -> bool
        ensures { (text pieces : List ℕ) → IsCompared text pieces self.now
            → MatchBool result (pieces ++ last.now ≡ text) (pieces ++ last.now ≢ text) }
    {
        match self.left {
            Some(left) => left == last,
            None => false,
        }
    }
}
