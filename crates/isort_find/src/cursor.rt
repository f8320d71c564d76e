//! Where a finder stopped, with what it needs to go on.
ghost use Rattle.std.specs.Prelude.{◌≡◌, ◌+◌, ◌-◌, ◌^◌, IfOk, IfErr, OnErr, min};
ghost use Rattle.py_imports.specs.BindingValue.{binding_value};

use crate::error::FindError;
use crate::given_keys::GivenKeys;
use crate::key::key_of;
use crate::options::FindOptions;
use crate::pending::LineStart;
use py_imports::Binding;
use std::alloc::Global;
use std::marker::Model;

/// Where a finder stands in a text, with what it needs to go on: another finder goes on from here.
#[derive(Drop)]
pub struct Cursor {
    /// Which imports are found.
    options: FindOptions,
    /// Where the logical line begins from which a finder goes on.
    start: LineStart,
    /// How many bindings of that line were given or passed over.
    taken: usize,
    /// How many imports were given.
    given: u64,
    /// The keys of the imports given, where only the first under each is found.
    keys: GivenKeys,
}

impl Model for Cursor {
    ghost use Rattle.isort_find.specs.Cursor.{CursorState, cursor_state};

    ghost Value = { CursorState };

    ghost view = { λ c. cursor_state c.options c.start c.taken c.given c.keys };
}

impl Cursor {
    ghost use Rattle.isort_find.specs.Cursor.{first_cursor, knows_key};
    ghost use Rattle.isort_find.specs.Private.CursorMoves.{Admits, cursor_after, cursor_before};

    /// At the start of a text, before its first import.
    pub(crate) fn start(alloc: Global, options: FindOptions) -> Cursor
        ensures { result ≡ first_cursor options }
    {
        Cursor {
            options,
            start: LineStart { offset: 0, line: 1 },
            taken: 0,
            given: 0,
            keys: GivenKeys::new(alloc),
        }
    }

    /// Whether no binding with the key of this one was given, and notes its key.
    pub(crate) fn admit(&mut self, alloc: Global, binding: &Binding) -> Result<bool, FindError>
        ensures ok { IfOk result (λ is_new.
            Admits self.old (binding_value binding.now) is_new self.new) }
        ensures err { IfErr result (λ e. e ≡ FindError.Memory) }
        ensures kept { OnErr result (self.new ≡ self.old) }
    {
        match self.options.unique {
            None => Ok(true),
            Some(key) => {
                let key = key_of(alloc, binding, key)?;
                let is_new = self.keys.insert(key)?;
                Ok(is_new)
            }
        }
    }

    /// Whether a binding with the key of this one was given. Without memory for that key, each key is compared in turn.
    pub(crate) fn knows(&self, alloc: Global, binding: &Binding) -> bool
        ensures { result
            ≡ knows_key self.now.options.unique self.now.keys (binding_value binding.now) }
    {
        match self.options.unique {
            None => false,
            Some(key) => match key_of(alloc, binding, key) {
                Ok(text) => self.keys.contains(&text),
                Err(_) => self.keys.has_key_of(binding, key),
            },
        }
    }

    /// A binding of the logical line that begins at `start` was given, and so many of its bindings were looked at.
    pub(crate) fn give(&mut self, start: LineStart, taken: usize)
        ensures { self.new ≡ cursor_after self.old start taken }
    {
        self.given = self.given.saturating_add(1);
        self.start = start;
        self.taken = taken;
    }

    /// What follows begins at `start`, and nothing of it was looked at.
    pub(crate) fn move_to(&mut self, start: LineStart)
        ensures { self.new ≡ cursor_before self.old start }
    {
        self.start = start;
        self.taken = 0;
    }

    /// Where the logical line begins from which a finder goes on.
    pub(crate) fn start_of_line(&self) -> LineStart
        ensures offset { result.offset ≡ self.now.offset }
        ensures line { result.line ≡ self.now.line }
    {
        self.start
    }

    /// How many bindings of that line were given or passed over.
    pub(crate) fn taken(&self) -> usize
        ensures { result ≡ self.now.taken }
    {
        self.taken
    }

    /// The byte from which a finder goes on: the start of the logical line whose import was given last, and 0 where
    /// none was; after the last import the text's length, or the start of the declaration that ended the top; at a
    /// fault the start of the logical line that has it.
    pub fn offset(&self) -> u64
        ensures { result ≡ self.now.offset }
    {
        self.start.offset
    }

    /// How many imports were given, over all finders that went on from one another. It stays at `u64::MAX`.
    pub fn given(&self) -> u64
        ensures { result ≡ self.now.given }
    {
        self.given
    }

    /// Which imports are found.
    pub fn options(&self) -> FindOptions
        ensures { result ≡ self.now.options }
    {
        self.options
    }
}
