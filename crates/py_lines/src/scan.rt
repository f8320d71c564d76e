//! The scan of a line: what is open where it stops, a piece of the line's code or the text of a string, and the brackets and fields round
//! it. It takes a line item after item, and stops before one that the bytes don't tell whole.

ghost use Rattle.std.specs.Prelude.{◌≡◌, ◌==◌, ◌+◌, ◌<◌, ◌^◌, None, Some, false, true, length, slice_index};
ghost use Rattle.py_lines.specs.Private.Scan.{begins, is_backslash, is_operator, is_quote};

use crate::character::{first_character, is_closing, is_opening, is_quote, utf8_prefix};
use crate::class::Class;
use crate::fault::FaultKind;
use crate::frames::{Frame, Frames, MAX_DEPTH, OpenField};
use crate::line_ends::outer_end_len;
use crate::line_scan::last_operator_end;
use crate::mode::{Mode, Region, Spelling, StringWithFields};
use crate::run::{ByteRun, characters_in};
use crate::string_text::{TextMove, fields_move, quotes_len, text_move};
use crate::whole_strings::{literal_run, text_len};

/// What the next bytes came to.
#[derive(Clone, Copy)]
pub enum Progress {
    /// So many of them were taken, and the line goes on.
    Going(usize),
    /// The line ended with the first of them: so many are its line end.
    LineEnded(usize),
    /// They don't tell yet. None was taken.
    Waits,
    /// This is wrong.
    Wrong(LineFault),
}

/// Where the scan of a line stopped.
#[derive(Clone, Copy)]
pub enum Stop {
    /// After the line: so many bytes are its line end.
    LineEnd(usize),
    /// Before bytes that don't tell what they are, or after all.
    TextEnd,
    /// Where this is wrong.
    Wrong(LineFault),
}

/// What is wrong in a line.
#[derive(Clone, Copy)]
pub struct LineFault {
    /// What it is.
    pub kind: FaultKind,
    /// Where it stands: the byte from the line's start.
    pub place: usize,
}

/// What is open where the scan of a line stops. Places are bytes from the line's start.
#[derive(Drop)]
pub struct Scan {
    /// What is open, the brackets and fields aside.
    pub mode: Mode,
    /// The byte at which the open piece begins: that of the string, if a string's text is open.
    pub start: usize,
    /// The brackets and fields that are open.
    pub frames: Frames,
    /// Where the scan stops.
    pub stop: usize,
}

impl Scan {
    ghost use Rattle.py_lines.specs.Private.Scan.{BeginsWith, DoesText, EndsField, EndsOpen, EndsTextSo, HasPending, HasQuote, HoldsRun, IsPending};
    ghost use Rattle.py_lines.specs.Private.Scan.{Steps, TakesOperator, ends_before, is_in_code, is_text, len_utf8, mode_from, opened_at, passed};
    ghost use Rattle.py_lines.specs.Private.Scan.{string_start, wrong_here};

    /// At the start of a line.
    pub fn new(mode: Mode) -> Scan
        ensures { result ≡ opened_at mode }
    {
        Scan {
            mode,
            start: 0,
            frames: Frames::new(),
            stop: 0,
        }
    }

    /// Begins a line anew.
    pub fn restart(&mut self, mode: Mode)
        ensures { self.new ≡ opened_at mode }
    {
        self.mode = mode;
        self.start = 0;
        self.frames.clear();
        self.stop = 0;
    }

    /// Whether no piece is open and no field, so that code of the line goes on.
    #[inline(always)]
    pub fn is_in_code(&self) -> bool
        ensures { result ≡ is_in_code self.now }
    {
        matches!(self.mode, Mode::Free) && !self.frames.has_field()
    }

    /// Takes so many bytes of code, after which no piece is open.
    #[inline(always)]
    pub fn pass(&mut self, len: usize)
        requires { self.old.stop + len < 2 ^ 64 }
        ensures { self.new ≡ passed self.old len }
    {
        self.stop += len;
        self.mode = Mode::Free;
        self.start = self.stop;
    }

    /// What is wrong where the scan stops.
    fn wrong(&self, kind: FaultKind) -> Progress
        ensures { result ≡ wrong_here self.now kind }
    {
        Progress::Wrong(LineFault {
            kind,
            place: self.stop,
        })
    }

    /// Ends the innermost field with a `}`: back in the string round it.
    fn end_field(&mut self) -> Progress
        requires { self.old.stop + 1 < 2 ^ 64 }
        ensures { EndsField self.old result self.new }
    {
        if let Some(Frame::Field(field)) = self.frames.pop() {
            self.mode = Mode::Fields(field.host, field.region, false);
            self.start = field.start;
        }
        self.stop += 1;
        Progress::Going(1)
    }

    /// Takes an operator after the open piece. In a field's code, outside brackets, `}` ends the field, and `:` begins its specification.
    fn take_operator(&mut self, c: char) -> Progress
        requires bytes { self.old.stop + 1 < 2 ^ 64 }
        requires operator { is_operator c ≡ true }
        ensures { TakesOperator self.old c result self.new }
    {
        if let Some(Frame::Field(field)) = self.frames.innermost() {
            if c == '}' {
                return self.end_field();
            }
            if c == ':' {
                self.mode = Mode::Fields(field.host, Region::Specification, false);
                self.start = field.start;
                self.stop += 1;
                return Progress::Going(1);
            }
        }
        if is_opening(c) {
            if !self.frames.open(Frame::Bracket(c, self.stop)) {
                return self.wrong(FaultKind::TooDeep);
            }
        } else if is_closing(c) && !self.frames.close(c) {
            return self.wrong(FaultKind::WrongClose);
        }
        self.pass(1);
        Progress::Going(1)
    }

    /// Where a string begins whose quote comes next, and how its prefix is spelled: the word that is open, if it is a prefix.
    fn string_start(&self) -> (usize, Spelling)
        ensures { result ≡ string_start self.now }
    {
        match self.mode {
            Mode::Word(spelling) if spelling.is_prefix() => (self.start, spelling),
            _ => (self.stop, Spelling::Name),
        }
    }

    /// Takes the quotes with which the bytes begin, after the open piece or with it as their prefix: they begin a string, or are an empty
    /// one.
    fn take_quotes(&mut self, bytes: &[u8]) -> Progress
        requires bytes { self.old.stop + length bytes.now < 2 ^ 64 }
        requires quote { begins is_quote bytes.now ≡ true }
        requires after { ends_before self.old.mode (slice_index bytes.now 0) ≡ true }
        ensures { Steps self.old bytes.now result self.new }
    {
        let Some(quotes) = quotes_len(bytes) else {
            return Progress::Waits;
        };
        if quotes == 2 {
            self.pass(2);
            return Progress::Going(2);
        }
        let (start, spelling) = self.string_start();
        self.mode = Mode::of_string(spelling, bytes[0] as char, quotes == 3);
        self.start = start;
        self.stop += quotes;
        Progress::Going(quotes)
    }

    /// Takes the join of two lines with whose backslash the bytes begin (Python Language Reference, 2.1.5).
    fn take_join(&mut self, bytes: &[u8]) -> Progress
        requires bytes { self.old.stop + length bytes.now < 2 ^ 64 }
        requires backslash { begins is_backslash bytes.now ≡ true }
        requires after { ends_before self.old.mode (slice_index bytes.now 0) ≡ true }
        ensures { Steps self.old bytes.now result self.new }
    {
        if let Some(len) = outer_end_len(&bytes[1..]) {
            self.pass(1 + len);
            return Progress::Going(1 + len);
        }
        match first_character(&bytes[1..]) {
            None | Some('\r') => Progress::Waits,
            Some(_) => self.wrong(FaultKind::BadJoin),
        }
    }

    /// Takes what the bytes begin with, after the open piece: this character is the first of it.
    fn take_piece(&mut self, c: char, bytes: &[u8]) -> Progress
        requires bytes { self.old.stop + length bytes.now < 2 ^ 64 }
        requires first { BeginsWith bytes.now c }
        requires after { ends_before self.old.mode c ≡ true }
        ensures { Steps self.old bytes.now result self.new }
    {
        let mode = match Class::of(bytes[0]) {
            Class::Word => Mode::Word(Spelling::of(c)),
            Class::Wide if unicode_ident::is_xid_start(c) => Mode::Word(Spelling::Name),
            Class::Space => Mode::Space,
            Class::Hash => Mode::Comment,
            Class::Operator | Class::Opening | Class::Closing => return self.take_operator(c),
            // In brackets and fields the line goes on.
            Class::LineFeed | Class::Return => {
                let Some(len) = outer_end_len(bytes) else {
                    return Progress::Waits;
                };
                self.pass(len);
                if self.frames.is_empty() {
                    return Progress::LineEnded(len);
                }
                return Progress::Going(len);
            }
            Class::Quote => return self.take_quotes(bytes),
            Class::Backslash => return self.take_join(bytes),
            Class::Wide | Class::Other => return self.wrong(FaultKind::BadChar),
        };
        let len = c.len_utf8();
        self.mode = mode;
        self.start = self.stop;
        self.stop += len;
        Progress::Going(len)
    }

    /// Takes what the bytes begin with, where no string's text is open.
    #[tactic(auto, unfolding(crate::specs::Character::is_mark))]
    fn take_in_code(&mut self, bytes: &[u8]) -> Progress
        requires bytes { self.old.stop + length bytes.now < 2 ^ 64 }
        requires code { is_text self.old.mode ≡ false }
        ensures { Steps self.old bytes.now result self.new }
    {
        let Some(c) = first_character(bytes) else {
            return Progress::Waits;
        };
        let len = c.len_utf8();
        if matches!(self.mode, Mode::Start) && c == '\u{feff}' {
            self.pass(len);
            return Progress::Going(len);
        }
        if let Some(mode) = self.mode.with(c) {
            self.mode = mode;
            self.stop += len;
            return Progress::Going(len);
        }
        self.take_piece(c, bytes)
    }

    /// Does what bytes do to the text of the string that is open.
    fn take_text(&mut self, text_move: TextMove, bytes: &[u8]) -> Progress
        requires bytes { self.old.stop + length bytes.now < 2 ^ 64 }
        requires text { is_text self.old.mode ≡ true }
        requires does { DoesText (mode_from self.old.mode) bytes.now text_move }
        ensures { Steps self.old bytes.now result self.new }
    {
        let (kind, place) = match text_move {
            TextMove::Grows(mode, len) => {
                self.mode = mode;
                self.stop += len;
                return Progress::Going(len);
            }
            TextMove::Closes(len) => {
                self.pass(len);
                return Progress::Going(len);
            }
            TextMove::OpensField(host, region) => {
                let field = OpenField {
                    place: self.stop,
                    host,
                    region,
                    start: self.start,
                };
                if !self.frames.open(Frame::Field(field)) {
                    return self.wrong(FaultKind::TooDeep);
                }
                self.pass(1);
                return Progress::Going(1);
            }
            TextMove::EndsField => return self.end_field(),
            TextMove::Waits => return Progress::Waits,
            TextMove::BreaksString => (FaultKind::OpenString, self.start),
            TextMove::EndsSpecification => (FaultKind::OpenField, self.frames.last_place()),
        };
        Progress::Wrong(LineFault { kind, place })
    }

    /// Takes the item that the bytes begin with, where they tell it.
    pub fn step(&mut self, bytes: &[u8]) -> Progress
        requires some { 0 < length bytes.now }
        requires bytes { self.old.stop + length bytes.now < 2 ^ 64 }
        requires quote { HasQuote self.old.mode }
        ensures { Steps self.old bytes.now result self.new }
    {
        let text_move = match self.mode {
            Mode::Short(quote) => text_move(self.mode, quote, false, bytes),
            Mode::Long(quote) => text_move(self.mode, quote, true, bytes),
            Mode::Fields(host, region, named) => fields_move(host, region, named, bytes),
            _ => return self.take_in_code(bytes),
        };
        self.take_text(text_move, bytes)
    }

    /// Takes bytes that end no line, and no piece of it outside fields, and answers the bytes after them.
    pub fn hold<'s>(&mut self, bytes: &'s [u8]) -> &'s [u8]
        requires bytes { self.old.stop + length bytes.now < 2 ^ 64 }
        requires quote { HasQuote self.old.mode }
        ensures { HoldsRun self.old bytes.now result.now self.new }
    {
        let len = match self.mode {
            // Words, spaces and signs of a field's code, up to the last sign: after it no piece is open.
            Mode::Free if self.frames.has_field() => {
                let len = last_operator_end(&bytes[..ByteRun::Code.len_in(bytes)]);
                self.start = self.stop + len;
                len
            }
            // Deeper in fields, text is seldom simple.
            Mode::Fields(host, Region::Literal, false) if self.frames.len() <= 10 => {
                text_len(host.quote as u8, bytes)
            }
            Mode::Fields(host, _, _) => literal_run(host.quote as u8, bytes),
            mode => characters_in(mode, bytes),
        };
        self.stop += len;
        &bytes[len..]
    }

    /// What is wrong where the text ends with these characters, if anything is.
    fn unfinished(&self, bytes: &[u8]) -> Option<LineFault>
        requires pending { IsPending self.now.mode bytes.now }
        ensures { EndsOpen self.now bytes.now result }
    {
        let lone = if bytes.len() == 1 { bytes[0] } else { 0 };
        let (kind, place) = match self.mode {
            Mode::Fields(_, Region::Specification, _) => {
                (FaultKind::OpenField, self.frames.last_place())
            }
            // A `{` would open a field, if there is room.
            Mode::Fields(_, Region::Literal, false) if lone == b'{' => {
                if self.frames.len() < MAX_DEPTH {
                    (FaultKind::OpenField, self.stop)
                } else {
                    (FaultKind::TooDeep, self.stop)
                }
            }
            Mode::Fields(host, _, _) if host.is_long => (FaultKind::OpenTriple, self.start),
            Mode::Fields(_, _, _) => (FaultKind::OpenString, self.start),
            Mode::Short(_) => (FaultKind::OpenString, self.start),
            Mode::Long(_) => (FaultKind::OpenTriple, self.start),
            // A quote begins a string.
            _ if is_quote(lone as char) => (FaultKind::OpenString, self.string_start().0),
            _ if lone == b'\\' => (FaultKind::BadJoin, self.stop),
            _ => match self.frames.innermost()? {
                Frame::Bracket(_, place) => (FaultKind::OpenBracket, place),
                Frame::Field(field) => (FaultKind::OpenField, field.place),
            },
        };
        Some(LineFault { kind, place })
    }

    /// Ends the text with these bytes, before which the scan stops: how many bytes the line end of its last line has, or what is wrong
    /// there.
    pub fn end(&mut self, bytes: &[u8]) -> Result<usize, LineFault>
        requires bytes { self.old.stop + length bytes.now < 2 ^ 64 }
        requires pending { HasPending self.old.mode bytes.now }
        ensures { EndsTextSo self.old bytes.now result self.new }
    {
        if bytes.starts_with(b"\r") && !self.mode.is_text() && self.frames.is_empty() {
            self.pass(1);
            return Ok(1);
        }
        let characters = utf8_prefix(bytes).len();
        if characters < bytes.len() {
            return Err(LineFault {
                kind: FaultKind::BadUtf8,
                place: self.stop + characters,
            });
        }
        if let Some(line_fault) = self.unfinished(bytes) {
            return Err(line_fault);
        }
        self.stop += characters;
        Ok(0)
    }
}
