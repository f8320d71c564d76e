//! Tokens, and of what kind each is.
ghost use Rattle.std.specs.Prelude.{◌≡◌, ◌==◌};
ghost use Rattle.py_lines.specs.Token.{is_comment, is_operator_where, opens_bracket, closes_bracket};

/// What a token is (Python Language Reference, chapter 2).
#[derive(Clone, Copy, Debug, PartialEq, Eq)]
pub enum TokKind {
    /// A name or a keyword (2.3).
    Name,
    /// A number (2.4).
    Number,
    /// A string, with its prefix and its quotes (2.4.1).
    Str,
    /// An operator or a delimiter of one character: its ASCII byte (2.5, 2.6).
    Op(u8),
    /// A comment (2.1.3).
    Remark,
}

impl TokKind {
    /// Whether it is a comment (Python Language Reference, 2.1.3).
    pub fn is_comment(self) -> bool
        ensures { result ≡ is_comment self }
    {
        matches!(self, TokKind::Remark)
    }

    /// Whether it is the operator or delimiter of this ASCII byte.
    pub fn is_operator(self, byte: u8) -> bool
        ensures { result ≡ is_operator_where (λ c. c == byte) self }
    {
        matches!(self, TokKind::Op(operator) if operator == byte)
    }

    /// Whether it is an opening bracket: `(`, `[` or `{`.
    #[tactic(auto, unfolding(crate::specs::Balance::is_opening))]
    pub fn is_opening(self) -> bool
        ensures { result ≡ opens_bracket self }
    {
        matches!(self, TokKind::Op(b'(' | b'[' | b'{'))
    }

    /// Whether it is a closing bracket: `)`, `]` or `}`.
    #[tactic(auto, unfolding(crate::specs::Balance::is_closing))]
    pub fn is_closing(self) -> bool
        ensures { result ≡ closes_bracket self }
    {
        matches!(self, TokKind::Op(b')' | b']' | b'}'))
    }
}

/// A token of a logical line.
#[derive(Clone, Copy, Debug, PartialEq, Eq)]
pub struct Token {
    /// What it is.
    pub kind: TokKind,
    /// The byte of its unit's text at which it begins.
    pub start: usize,
    /// The byte of its unit's text after its last one.
    pub stop: usize,
    /// The line of its first byte, from 1.
    pub line: u64,
}
