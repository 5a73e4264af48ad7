//! A day at the desk: the lines that came so far, and the answers to them.

use crate::session::Session;
use std::alloc::{AllocError, Global};
use std::io::Write;
use wire::{LineStart, first_line};

#[derive(Drop)]
pub(crate) struct Day<W> {
    session: Session<W>,
    /// The beginning of a line whose end has not come yet.
    start: LineStart,
}

impl<W: Write + Drop> Day<W> {
    pub(crate) fn new(heap: Global, out: W) -> Result<Day<W>, AllocError> {
        let start = LineStart::new(heap)?;
        let session = Session::new(heap, out)?;
        Ok(Day { session, start })
    }

    /// Answers every line that ends in the text, and keeps the beginning of one that does not.
    pub(crate) fn feed(&mut self, text: &[u8]) -> anyhow::Result<()> {
        let mut rest = text;
        while let Some((line, after)) = first_line(rest) {
            if self.start.is_empty() {
                self.session.answer(line)?;
            } else {
                self.start.push(line);
                self.session.answer(self.start.bytes())?;
                self.start.clear();
            }
            rest = after;
        }
        self.start.push(rest);
        Ok(())
    }

    /// Answers what stands after the last line feed, if anything does.
    pub(crate) fn finish(&mut self) -> anyhow::Result<()> {
        if !self.start.is_empty() {
            self.session.answer(self.start.bytes())?;
        }
        self.flush()
    }

    pub(crate) fn flush(&mut self) -> anyhow::Result<()> {
        self.session.flush()
    }
}
