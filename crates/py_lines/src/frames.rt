//! The brackets and fields that are open at a place of a line, kept without memory.

ghost use Rattle.std.specs.Prelude.{◌≡◌, ◌==◌, ◌≤◌, List, [], ◌∷◌, length, reverse, take};
ghost use Rattle.py_lines.specs.Private.Frames.{ClosesBracket, Frame, IsInnermostFrame, OpensFrame, TakesFrame, closing_of, fields_of, has_field};
ghost use Rattle.py_lines.specs.Private.Frames.{place_of};

use crate::mode::{Region, StringWithFields};
use std::marker::Model;

/// How many brackets and fields may be open at once.
pub const MAX_DEPTH: usize = 200;

/// The bracket that closes an opening one.
pub fn closing_of(opener: char) -> char
    ensures { result ≡ closing_of opener }
{
    match opener {
        '(' => ')',
        '[' => ']',
        _ => '}',
    }
}

/// What is open: a bracket in code, or a field.
#[derive(Clone, Copy)]
pub enum Frame {
    /// A bracket, and the byte where it stands.
    Bracket(char, usize),
    /// A field.
    Field(OpenField),
}

/// A field that is open, and the string that is suspended round it.
#[derive(Clone, Copy)]
pub struct OpenField {
    /// The byte where its `{` stands.
    pub place: usize,
    /// The string round it.
    pub host: StringWithFields,
    /// Where in that string it stands.
    pub region: Region,
    /// The byte at which that string begins.
    pub start: usize,
}

/// The brackets and fields that are open. No text has more than 200 of them open at once.
#[derive(Drop)]
pub struct Frames {
    /// They, the innermost last. What stands after them counts for nothing.
    frames: [Frame; MAX_DEPTH],
    /// How many they are.
    depth: u8,
    /// How many of them are fields.
    fields: u8,
}

// Clauses see what is open, the innermost first.
impl Model for Frames {
    ghost Value = { List Frame };

    ghost view = { λ f. reverse (take f.depth f.frames) };

    ghost invariant = { λ f. (length f.frames ≡ 200) × (f.depth ≤ 200)
        × (f.fields ≡ fields_of (reverse (take f.depth f.frames))) };
}

impl Frames {
    /// Nothing is open.
    pub fn new() -> Frames
        ensures { result ≡ [] }
    {
        // All is zero, so the compiler fills the array without a loop.
        Frames {
            frames: [Frame::Bracket('\0', 0); MAX_DEPTH],
            depth: 0,
            fields: 0,
        }
    }

    /// Nothing is open any longer.
    pub fn clear(&mut self)
        ensures { self.new ≡ [] }
    {
        self.depth = 0;
        self.fields = 0;
    }

    /// Whether nothing is open.
    #[inline(always)]
    pub fn is_empty(&self) -> bool
        ensures { result ≡ (length self.now == 0) }
    {
        self.len() == 0
    }

    /// How many brackets and fields are open.
    #[tactic(auto, using(crate::proofs::FieldScans::FrameArrays::first_frames_length))]
    pub fn len(&self) -> usize
        ensures is { result ≡ length self.now }
        ensures few { result ≤ 200 }
    {
        self.depth as usize
    }

    /// Whether a field is open.
    #[inline(always)]
    #[tactic(auto, using(crate::proofs::FieldScans::FrameArrays::fields_some))]
    pub fn has_field(&self) -> bool
        ensures { result ≡ has_field self.now }
    {
        self.fields > 0
    }

    /// What was opened last and is still open.
    pub fn innermost(&self) -> Option<Frame>
        ensures { IsInnermostFrame result self.now }
    {
        if self.depth == 0 {
            return None;
        }
        Some(self.frames[self.depth as usize - 1])
    }

    /// The byte of what was opened last, if something is open.
    pub fn last_place(&self) -> usize
        ensures { (frame : Frame) (others : List Frame)
            → self.now ≡ frame ∷ others → result ≡ place_of frame }
    {
        match self.frames[self.depth.saturating_sub(1) as usize] {
            Frame::Bracket(_, place) => place,
            Frame::Field(field) => field.place,
        }
    }

    /// Opens a bracket or a field, if there is room for it.
    #[inline(always)]
    pub fn open(&mut self, frame: Frame) -> bool
        ensures { OpensFrame self.old frame result self.new }
    {
        if self.len() == MAX_DEPTH {
            return false;
        }
        self.frames[self.depth as usize] = frame;
        self.depth += 1;
        if let Frame::Field(_) = frame {
            self.fields += 1;
        }
        true
    }

    /// Takes away what was opened last, if something is open.
    #[inline(always)]
    pub fn pop(&mut self) -> Option<Frame>
        ensures { TakesFrame self.old result self.new }
    {
        let frame = self.innermost()?;
        self.depth -= 1;
        if let Frame::Field(_) = frame {
            self.fields -= 1;
        }
        Some(frame)
    }

    /// Closes the bracket that is innermost, if this closes it.
    #[inline(always)]
    pub fn close(&mut self, closer: char) -> bool
        ensures { ClosesBracket self.old closer result self.new }
    {
        match self.innermost() {
            Some(Frame::Bracket(opener, _)) if closer == closing_of(opener) => {
                self.pop();
                true
            }
            _ => false,
        }
    }
}
