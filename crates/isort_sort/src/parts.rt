//! A sorted text, part by part, as it is made.
ghost use Rattle.std.specs.Prelude.{◌≡◌, ◌++◌, ◌≤◌, ℕ, List, [], length, slice_range, IfOk, IfSome, OnOk};
ghost use Rattle.std.specs.Str.{IsUtf8};
ghost use Rattle.isort_settings.specs.Values.{Values, values};
ghost use Rattle.isort_sort.specs.Private.Arranged.{IsReady};
ghost use Rattle.isort_sort.specs.Private.Compared.{Takes};
ghost use Rattle.isort_sort.specs.Private.Parts.{part_text, parts_left, HasMade, Makes};
ghost use Rattle.isort_sort.specs.Private.Reading.{IsFoundIn};
ghost use Rattle.isort_sort.specs.Sorted.{IsLaidOut};

use crate::arrange::{Arrangement, arrange};
use crate::comparison::Comparison;
use crate::finder::FoundBlock;
use crate::line_end::LineEnd;
use crate::read::FoundText;
use isort_settings::Settings;
use std::alloc::{AllocError, Global};
use std::vec::IntoIter;

/// What a sorted text has up to the end of a block, of which the text isn't made yet.
#[derive(Drop)]
pub(crate) struct Part<'t> {
    /// What stays of the text before the block.
    pub(crate) before: &'t [u8],
    /// The layout of the block.
    pub(crate) layout: Arrangement<'t>,
}

/// The bytes of a text from one place up to another.
fn between(text: &[u8], start: usize, stop: usize) -> &[u8]
    requires ordered { start ≤ stop }
    requires within { stop ≤ length text.now }
    ensures { result.now ≡ slice_range text.now start stop }
{
    &text[start..stop]
}

impl Part<'_> {
    /// Compares the part with a text. Its layout is made statement by statement in `buffer`, and no more of it than up to the
    /// first statement that differs.
    pub(crate) fn compare(
        mut self,
        buffer: &mut String,
        compared: &mut Comparison<'_>,
    ) -> Result<(), AllocError>
        requires { IsReady self.layout }
        ensures { OnOk result (Takes compared.old (part_text self.entry) compared.new) }
    {
        compared.take(self.before);
        self.layout.compare(buffer, compared)
    }
}

/// The parts of a sorted text, one after another.
#[derive(Drop)]
pub(crate) struct Parts<'t> {
    /// The text.
    text: &'t [u8],
    /// The settings.
    settings: &'t Settings,
    /// The line end that is written.
    end: LineEnd,
    /// The byte after the last block that was laid out.
    at: usize,
    /// The blocks that are left.
    blocks: IntoIter<FoundBlock>,
}

impl<'t> Parts<'t> {
    /// The parts of the text, of which none is made yet.
    pub(crate) fn new(text: &'t [u8], settings: &'t Settings, blocks: Vec<FoundBlock>) -> Parts<'t>
        requires { IsFoundIn text.now (FoundText.Blocks blocks) }
        ensures { HasMade text.now (values settings.now) result [] }
    {
        Parts {
            text,
            settings,
            end: LineEnd::first_of(text),
            at: 0,
            blocks: blocks.into_iter(),
        }
    }

    /// The part up to the end of the next block; none where no block is left.
    pub(crate) fn next(&mut self, alloc: Global) -> Result<Option<Part<'t>>, AllocError>
        requires { (text : List ℕ) × (v : Values) × (out : List ℕ) × HasMade text v self.old out }
        ensures makes { IfOk result (λ part. Makes self.old part self.new) }
        ensures ready { IfOk result (λ part. IfSome part (λ p. IsReady p.layout)) }
    {
        let Some(block) = self.blocks.next() else {
            return Ok(None);
        };
        let before = between(self.text, self.at, block.start);
        self.at = block.stop;
        let layout = arrange(alloc, self.settings, self.end, block)?;
        Ok(Some(Part { before, layout }))
    }

    /// What stays of the text after the last block.
    pub(crate) fn rest(&self) -> &'t [u8]
        requires { (text : List ℕ) × (v : Values) × (out : List ℕ) × HasMade text v self.now out }
        ensures laid { (text : List ℕ) (v : Values) (out : List ℕ) → HasMade text v self.now out
            → parts_left self.now ≡ [] → IsLaidOut text v (out ++ result.now) }
        ensures utf8 { parts_left self.now ≡ [] → IsUtf8 result.now }
    {
        between(self.text, self.at, self.text.len())
    }
}
