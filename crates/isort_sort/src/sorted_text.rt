//! A sorted text, of which the layouts alone are copies.
ghost use Rattle.std.specs.Prelude.{◌≡◌, ◌≢◌, ◌++◌, MatchBool, string_bytes, IfOk, OnOk, OnErr, IfErr};
ghost use Rattle.std.specs.Io.KnownBytes.{Appends};
ghost use Rattle.std.specs.Str.{IsUtf8};
ghost use Rattle.isort_settings.specs.Values.{values};
ghost use Rattle.isort_sort.specs.Metered.{inner_of, last_of, IsGivenUp};
ghost use Rattle.isort_sort.specs.Private.Arranged.{IsReady};
ghost use Rattle.isort_sort.specs.Private.Parts.{bytes_of, part_text, piece_bytes, sorted_bytes, AreTexts};
ghost use Rattle.isort_sort.specs.Private.Reading.{IsFoundIn};
ghost use Rattle.isort_sort.specs.Sorted.{IsLaidOut};
ghost use Rattle.isort_sort.specs.Written.{AppendsPrefix};

use crate::answer::SortError;
use crate::comparison::Comparison;
use crate::finder::FoundBlock;
use crate::metered::{Last, Metered};
use crate::parts::{Part, Parts};
use crate::read::FoundText;
use crate::write::write_whole;
use isort_settings::Settings;
use std::alloc::{AllocError, Global};
use std::io::Write;
use std::str;

/// A piece of a sorted text.
#[derive(Drop)]
pub(crate) enum Piece<'t> {
    /// What stays of the text beside blocks.
    Kept(&'t [u8]),
    /// The layout of a block.
    Laid(String),
}

impl Piece<'_> {
    /// Its bytes.
    fn as_bytes(&self) -> &[u8]
        ensures { result.now ≡ piece_bytes self.now }
    {
        match self {
            Piece::Kept(bytes) => bytes,
            Piece::Laid(layout) => layout.as_bytes(),
        }
    }
}

/// Puts the two pieces of a part after `pieces`.
fn push_part<'t>(
    alloc: Global,
    pieces: &mut Vec<Piece<'t>>,
    part: Part<'t>,
) -> Result<(), AllocError>
    requires { IsReady part.layout }
    ensures text { OnOk result (bytes_of pieces.new.items
        ≡ bytes_of pieces.old.items ++ part_text part.entry) }
    ensures utf8 { OnOk result (AreTexts pieces.old.items → IsUtf8 part.entry.before.now
        → AreTexts pieces.new.items) }
{
    let Part { before, layout } = part;
    let text = layout.take_text(alloc)?;
    pieces.push(Piece::Kept(before))?;
    pieces.push(Piece::Laid(text))?;
    Ok(())
}

/// A sorted text.
#[derive(Drop)]
pub(crate) struct SortedText<'t> {
    /// Its pieces, one after another.
    pieces: Vec<Piece<'t>>,
}

impl<'t> SortedText<'t> {
    /// The sorted text of a text in which these blocks were found.
    pub(crate) fn new(
        alloc: Global,
        text: &'t [u8],
        settings: &'t Settings,
        blocks: Vec<FoundBlock>,
    ) -> Result<SortedText<'t>, AllocError>
        requires { IsFoundIn text.now (FoundText.Blocks blocks) }
        ensures laid { IfOk result
            (λ sorted. IsLaidOut text.now (values settings.now) (sorted_bytes sorted)) }
        ensures utf8 { IfOk result (λ sorted. AreTexts sorted.pieces.items) }
    {
        let mut made = Parts::new(text, settings, blocks);
        let mut pieces = Vec::new(alloc);
        'parts: while let Some(part) = made.next(alloc)? {
            push_part(alloc, &mut pieces, part)?;
        }
        pieces.push(Piece::Kept(made.rest()))?;
        Ok(SortedText { pieces })
    }

    /// Whether it is this text.
    pub(crate) fn is(&self, text: &[u8]) -> bool
        ensures { MatchBool result (sorted_bytes self.now ≡ text.now)
            (sorted_bytes self.now ≢ text.now) }
    {
        let mut compared = Comparison::of(text);
        'pieces: for piece in &self.pieces {
            compared.take(piece.as_bytes());
        }
        compared.ends_with(&[])
    }

    /// It as one text.
    pub(crate) fn joined(&self, alloc: Global) -> Result<String, AllocError>
        requires { AreTexts self.now.pieces.items }
        ensures { IfOk result (λ sorted. string_bytes sorted ≡ sorted_bytes self.now) }
    {
        let mut sorted = String::new(alloc);
        'pieces: for piece in &self.pieces {
            sorted.push_str(text_of(piece.as_bytes()))?;
        }
        Ok(sorted)
    }

    /// Writes it whole, or a prefix of it where a write fails.
    pub(crate) fn write_to<W: Write>(&self, writer: &mut Metered<W>) -> Result<(), SortError>
        requires { last_of writer.old ≡ Last.Fine }
        ensures ok { OnOk result
            (Appends (W.contents (inner_of writer.old)) (W.contents (inner_of writer.new))
            (sorted_bytes self.now)) }
        ensures fine { OnOk result (last_of writer.new ≡ Last.Fine) }
        ensures prefix { OnErr result
            (AppendsPrefix (W.contents (inner_of writer.old)) (W.contents (inner_of writer.new))
            (sorted_bytes self.now)) }
        ensures err { IfErr result (λ e. e ≡ SortError.Write) }
        ensures stopped { OnErr result (IsGivenUp (last_of writer.new)) }
    {
        'pieces: for piece in &self.pieces {
            write_whole(writer, piece.as_bytes())?;
        }
        Ok(())
    }
}

/// Bytes that are UTF-8, as a text.
fn text_of(bytes: &[u8]) -> &str
    requires { IsUtf8 bytes.now }
    ensures { result.now ≡ bytes.now }
{
    match str::from_utf8(bytes) {
        Ok(text) => text,
        Err(_) => unreachable!(),
    }
}
