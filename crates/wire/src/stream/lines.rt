//! The first line of a text, and the beginning of a line that comes in parts.

ghost use Rattle.std.specs.Prelude.{◌≡◌, [], ◌++◌, length, take, IfOk, ◌==◌};
ghost use Rattle.memchr.specs.Find.{IsFirstByte, is_byte};
ghost use Rattle.wire.specs.Lines.{line_feed};
ghost use Rattle.wire.specs.Stream.{FirstLine, kept};

use crate::stream::LineStart;
use memchr::memchr;
use reserved::Reserved;
use std::alloc::{AllocError, Global};

/// So many bytes are looked at one by one first, since a search by vectors takes longer than that where the line is short.
const NEAR_BYTES: usize = 16;

/// Where the first line feed stands; `None` where there is none.
fn line_end(text: &[u8]) -> Option<usize>
    ensures first_line_feed { IsFirstByte (is_byte line_feed) text.now result }
{
    let near = &text[..text.len().min(NEAR_BYTES)];
    near.iter()
        .position(|byte| *byte == b'\n')
        .or_else(|| memchr(b'\n', text))
}

/// The first line of a text and what follows its line feed; `None` where there is no line feed.
pub fn first_line(text: &[u8]) -> Option<(&[u8], &[u8])>
    ensures splits_at_the_first_line_feed { FirstLine text.now result }
{
    let end = line_end(text)?;
    Some((&text[..end], &text[end + 1..]))
}

impl LineStart {
    /// Nothing of a line yet.
    pub fn new(heap: Global) -> Result<LineStart, AllocError>
        ensures keeps_nothing { IfOk result (λ start. kept start ≡ []) }
    {
        let bytes = Reserved::new(heap)?;
        Ok(LineStart { bytes })
    }

    /// One more part of the line.
    pub fn push(&mut self, part: &[u8])
        ensures keeps_the_first_81_bytes { kept self.new ≡ take 81 (kept self.old ++ part.now) }
    {
        for byte in part {
            if self.bytes.push(*byte).is_err() {
                return;
            }
        }
    }

    /// What is kept of the line.
    pub fn bytes(&self) -> &[u8]
        ensures what_is_kept { result.now ≡ kept self.now }
    {
        self.bytes.as_slice()
    }

    pub fn is_empty(&self) -> bool
        ensures nothing_is_kept { result ≡ (length (kept self.now) == 0) }
    {
        self.bytes.is_empty()
    }

    /// Begins a new line.
    pub fn clear(&mut self)
        ensures keeps_nothing { kept self.new ≡ [] }
    {
        self.bytes.clear();
    }
}
