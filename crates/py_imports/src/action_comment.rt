//! What comments ask of isort.
ghost use Rattle.std.specs.Prelude.{◌≡◌};
ghost use Rattle.py_imports.specs.ActionComment.{begins_with_word_byte, begins_with_phrase, begins_with_action, says};

/// What a comment can ask of isort (isort documentation, "Action Comments").
#[derive(Clone, Copy, Debug, PartialEq, Eq)]
pub enum ActionComment {
    /// `skip_file`: leave the whole file as it is.
    SkipFile,
    /// `skip`: leave this import statement where it is.
    Skip,
    /// `off`: leave what follows as it is, up to `on`.
    Off,
    /// `on`: sort again from here on.
    On,
    /// `split`: sort what stands before it and what comes after it apart from one another.
    Split,
}

impl ActionComment {
    ghost use Rattle.py_imports.specs.ActionComment.{action_word};

    /// The word that asks for the action.
    fn spelling(self) -> &'static str
        ensures { result.now ≡ action_word self }
    {
        match self {
            ActionComment::SkipFile => "skip_file",
            ActionComment::Skip => "skip",
            ActionComment::Off => "off",
            ActionComment::On => "on",
            ActionComment::Split => "split",
        }
    }
}

/// Whether the text begins with an ASCII letter, a digit or `_`.
fn begins_with_word_byte(text: &[u8]) -> bool
    ensures { result ≡ begins_with_word_byte text.now }
{
    match text.first() {
        Some(b) => b.is_ascii_alphanumeric() || *b == b'_',
        None => false,
    }
}

/// Whether the text begins with the phrase, and no byte of a word follows.
fn begins_with_phrase(text: &[u8], phrase: &str) -> bool
    ensures { result ≡ begins_with_phrase phrase.now text.now }
{
    match text.strip_prefix(phrase.as_bytes()) {
        Some(rest) => !begins_with_word_byte(rest),
        None => false,
    }
}

/// Whether the text begins with `isort:`, at most one space, and the action.
fn begins_with_action(text: &[u8], action: ActionComment) -> bool
    ensures { result ≡ begins_with_action action text.now }
{
    let Some(rest) = text.strip_prefix(b"isort:") else {
        return false;
    };
    match rest.strip_prefix(b" ") {
        Some(word) => begins_with_phrase(word, action.spelling()),
        None => begins_with_phrase(rest, action.spelling()),
    }
}

/// Whether a comment or a string with this text says the action (isort documentation, "Action Comments").
///
/// It does where the text holds, anywhere, `isort:`, then at most one space, then the action's word, and no ASCII
/// letter, digit or `_` follows. So `isort: skip_file` doesn't say `skip`.
pub fn says(text: &str, action: ActionComment) -> bool
    ensures { result ≡ says action text.now }
{
    let bytes = text.as_bytes();
    'places: for place in 0..bytes.len() {
        if begins_with_action(&bytes[place..], action) {
            return true;
        }
    }
    false
}
