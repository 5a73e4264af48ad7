//! The desk: one book, and the line call that drives it.

ghost use Rattle.std.specs.Prelude.{◌≡◌, ◌<◌, ◌≤◌, true, length, is_err, None};
ghost use Rattle.std.specs.Option.{unwrap_or};
ghost use Rattle.records.specs.Refusals.{due, Smallest};
ghost use Rattle.wire.specs.Lines.{fronted};
ghost use Rattle.desk.specs.Faults.{rank};
ghost use Rattle.desk.specs.Lines.{book_of, Commanded, Handled, Answered, line_causes, causes, text, length_told};

use crate::command::{Command, MarketName};
use crate::fault::{LineFault, Refused};
use crate::reading::read;
use book::Book;
use market::{Market, Weeks};
use records::{Answer, Call, Status, Terms};
use std::alloc::Global;
use wire::{ANSWER_BYTES, write_line};

const MAX_LINE_BYTES: usize = 80;

/// A desk with its book, once one is open.
#[derive(Drop)]
pub struct Desk {
    pub(crate) book: Option<Book<Market, Weeks>>,
}

// That a refused desk is unchanged is said of each step: it is a fact of the step and not of the desk.
impl Desk {
    /// A desk whose book is not open yet.
    pub fn new() -> Desk
        ensures no_book_is_open { book_of result ≡ None }
    {
        Desk { book: None }
    }

    /// Opens the book.
    fn open(&mut self, heap: Global, market: MarketName, terms: Terms) -> Result<Answer, LineFault>
        ensures done_or_refused { Commanded (Command.Open market terms) (book_of self.old) result (book_of self.new) }
        ensures refused_desk_is_unchanged { is_err result ≡ true → self.new ≡ self.old }
    {
        terms.check()?;
        if self.book.is_some() {
            return Err(LineFault::AlreadyOpen);
        }
        self.book = Some(Book::open(heap, market.into(), Weeks, terms)?);
        Ok(Answer {
            status: Status::New,
            exposure: 0,
            credit_position: 0,
            capacity: 0,
        })
    }

    /// A call of the open book.
    fn perform(&mut self, call: Call) -> Result<Answer, LineFault>
        ensures done_or_refused { Commanded (Command.Perform call) (book_of self.old) result (book_of self.new) }
        ensures refused_desk_is_unchanged { is_err result ≡ true → self.new ≡ self.old }
    {
        match &mut self.book {
            Some(book) => Ok(book.call(call)?),
            None => {
                call.check()?;
                Err(LineFault::NotOpen)
            }
        }
    }

    /// What a line asks for.
    fn handle(&mut self, heap: Global, line: &[u8]) -> Result<Answer, LineFault>
        ensures handled_as_due { Handled (due (line_causes line.now (book_of self.old))) line.now (book_of self.old) result (book_of self.new) }
        ensures refused_desk_is_unchanged { is_err result ≡ true → self.new ≡ self.old }
    {
        if line.len() > MAX_LINE_BYTES {
            return Err(LineFault::LineTooLong);
        }
        match read(line)? {
            Command::Open { market, terms } => self.open(heap, market, terms),
            Command::Perform(call) => self.perform(call),
        }
    }

    /// Handles a line, and writes its answer or its refusal at the front of the answer buffer. The scratch list is for
    /// calls that need one; none does yet.
    pub fn line(
        &mut self,
        heap: Global,
        number: u32,
        line: &[u8],
        buffer: &mut [u8],
        scratch: &mut [u32],
    ) -> Result<usize, Refused>
        ensures answered_or_refused_as_due { Answered number line.now buffer.old (book_of self.old) result buffer.new (book_of self.new) }
        ensures smallest_number_is_due { Smallest rank (causes (length buffer.old) line.now (book_of self.old)) (due (causes (length buffer.old) line.now (book_of self.old))) }
        ensures length_lies_within_the_buffer { length_told result ≤ length buffer.old }
        ensures short_buffer_is_untouched { length buffer.old < 96 → buffer.new ≡ buffer.old }
        ensures scratch_list_is_untouched { scratch.new ≡ scratch.old }
        ensures refused_desk_is_unchanged { is_err result ≡ true → self.new ≡ self.old }
    {
        if buffer.len() < ANSWER_BYTES {
            return Err(Refused {
                fault: LineFault::BufferTooShort,
                length: 0,
            });
        }
        let reply = self.handle(heap, line);
        // Nothing is written for want of memory, which has no line.
        let length = write(buffer, number, reply).unwrap_or(0);
        reply
            .map(|_| length)
            .map_err(|fault| Refused { fault, length })
    }
}

/// Writes the line of a reply at the front of a buffer with room for it, and says how long it is; `None` for a reply
/// that has no line.
fn write(buffer: &mut [u8], number: u32, reply: Result<Answer, LineFault>) -> Option<usize>
    requires room { 96 ≤ length buffer.old }
    ensures length_of_the_line { unwrap_or result 0 ≡ length (text number reply) }
    ensures line_stands_at_the_front { buffer.new ≡ fronted (text number reply) buffer.old }
{
    match reply {
        Ok(answer) => write_line(buffer, number, &answer),
        Err(fault) => write_line(buffer, number, &fault.refusal()?),
    }
}
