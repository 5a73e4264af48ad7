//! The desk with its memory, and the place where its answers go.

use anyhow::bail;
use desk::{Desk, LineFault, Refused};
use std::alloc::{AllocError, Global};
use std::io::Write;
use wire::ANSWER_BYTES;

const SCRATCH_NUMBERS: usize = 512;

#[derive(Drop)]
pub(crate) struct Session<W> {
    heap: Global,
    desk: Desk,
    scratch: Vec<u32>,
    /// The number of the last line that was answered.
    number: u32,
    out: W,
}

impl<W: Write + Drop> Session<W> {
    pub(crate) fn new(heap: Global, out: W) -> Result<Session<W>, AllocError> {
        let scratch = vec![in heap; 0u32; SCRATCH_NUMBERS]?;
        Ok(Session {
            heap,
            desk: Desk::new(),
            scratch,
            number: 0,
            out,
        })
    }

    /// Answers one line. Lines are numbered from 1 in 32 bits; after the largest number they go on from 0.
    pub(crate) fn answer(&mut self, line: &[u8]) -> anyhow::Result<()> {
        self.number = self.number.wrapping_add(1);
        let mut buffer = [0u8; ANSWER_BYTES];
        let length = match self.desk.line(
            self.heap,
            self.number,
            line,
            &mut buffer,
            &mut self.scratch,
        ) {
            Err(
                Refused {
                    fault: LineFault::OutOfMemory,
                    ..
                },
            ) => bail!("no memory for the book"),
            Ok(length) | Err(Refused { length, .. }) => length,
        };
        self.out.write_all(&buffer[..length])?;
        Ok(())
    }

    pub(crate) fn flush(&mut self) -> anyhow::Result<()> {
        self.out.flush()?;
        Ok(())
    }
}
