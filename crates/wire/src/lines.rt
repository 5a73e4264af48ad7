//! Answer lines and refusal lines, written into the caller's buffer.
ghost use Rattle.std.specs.Prelude.{◌≡◌, ◌+◌, ◌<◌, ◌≤◌, List, ℕ, [], ◌∷◌, ◌++◌, length, take, drop, decimal, IfSome, OnSome};
ghost use Rattle.std.specs.Fmt.{signed_decimal};
ghost use Rattle.std.specs.List.{AllByRecursion};
ghost use Rattle.wire.specs.Fields.{comma, Plain};
ghost use Rattle.wire.specs.Lines.{status_digit, layer_letter, answer_fields, refusal_fields, line_of, line_feed, after_commas};
ghost use Rattle.wire.specs.Lines.{line_room, number_room, LeavesShort, WritesFront, FallsInto, ReadsBack, fronted};

use itoa::{Buffer, write_digits};
use records::{Answer, Layer, Refusal, Status};
use std::marker::Model;

/// A buffer for a line has at least this many bytes.
pub const ANSWER_BYTES: usize = 96;

/// A buffer for a number has at least this many bytes, those of the longest `i64`.
pub const NUMBER_BYTES: usize = 20;

/// A text that grows at its front, as far as the longest line, since the last digit of a number is the first to come out.
// From front to back, with numbers that `itoa::Buffer` prints and an `ArrayString` gathers, 3 million queries take 0.30 s, more than
// with digits written by hand (0.25 s); this way they take 0.22 s.
#[derive(Drop)]
pub struct Text {
    bytes: [u8; ANSWER_BYTES],
    start: usize,
}

impl Model for Text {
    ghost Value = { List ℕ };

    ghost view = { λ t. drop t.start t.bytes };

    ghost invariant = { λ t. t.start ≤ line_room };
}

impl Text {
    /// The end of a line.
    fn line_feed() -> Text
        ensures line_feed_alone { result ≡ line_feed ∷ [] }
    {
        Text {
            bytes: [b'\n'; ANSWER_BYTES],
            start: ANSWER_BYTES - 1,
        }
    }

    fn as_slice(&self) -> &[u8]
        ensures whole { result.now ≡ self.now }
    {
        &self.bytes[self.start..]
    }

    fn prepend_byte(&mut self, byte: u8)
        requires room { length self.old < line_room }
        ensures prepended { self.new ≡ byte ∷ self.old }
    {
        self.start -= 1;
        self.bytes[self.start] = byte;
    }

    fn prepend_decimal(&mut self, number: u64)
        requires room { length self.old + 20 ≤ line_room }
        ensures prepended { self.new ≡ decimal number ++ self.old }
        ensures at_most_twenty { length self.new ≤ length self.old + 20 }
    {
        self.start = write_digits(number, &mut self.bytes, self.start);
    }

    /// Prepends a field, a number.
    fn prepend_number(&mut self, number: i64)
        requires room { length self.old + 22 ≤ line_room }
        ensures prepended { self.new ≡ comma ∷ signed_decimal number ++ self.old }
        ensures at_most_twenty_two { length self.new ≤ length self.old + 22 }
    {
        self.prepend_decimal(number.unsigned_abs());
        if number < 0 {
            self.prepend_byte(b'-');
        }
        self.prepend_byte(b',');
    }

    /// Prepends a field, a letter or a digit.
    fn prepend_letter(&mut self, letter: u8)
        requires room { length self.old + 2 ≤ line_room }
        ensures prepended { self.new ≡ comma ∷ letter ∷ self.old }
    {
        self.prepend_byte(letter);
        self.prepend_byte(b',');
    }
}

/// What a line replies with after its number: an answer or a refusal, and nothing else, since no other crate can make a text.
pub trait Reply {
    // The fields, in order.
    ghost fields: { Self → List (List ℕ) };

    /// The fields, each after a comma, and the line feed.
    fn text(&self) -> Text
        ensures each_after_a_comma { result ≡ after_commas (fields self.now) ++ line_feed ∷ [] }
        ensures no_field_holds_a_comma { AllByRecursion Plain (fields self.now) }
        ensures leaves_room_for_the_number { length result + 20 ≤ line_room };
}

impl Reply for Answer {
    ghost fields = { answer_fields };

    fn text(&self) -> Text {
        let mut text = Text::line_feed();
        text.prepend_number(self.capacity);
        text.prepend_number(self.credit_position);
        text.prepend_number(self.exposure);
        text.prepend_letter(status_digit(self.status));
        text
    }
}

impl Reply for Refusal {
    ghost fields = { refusal_fields };

    fn text(&self) -> Text {
        let mut text = Text::line_feed();
        text.prepend_number(i64::from(self.place.unwrap_or(0)));
        text.prepend_letter(layer_letter(self.layer));
        text.prepend_number(i64::from(self.number));
        text
    }
}

/// The digit that an answer line has for a status.
// No `From`, here and below: neither the enum nor the byte is a type of this crate, and the digit is the format's.
fn status_digit(status: Status) -> u8
    ensures is_the_digit { result ≡ status_digit status }
{
    match status {
        Status::New => b'0',
        Status::CountedBefore => b'1',
    }
}

/// The letter that a refusal line has for a layer.
fn layer_letter(layer: Layer) -> u8
    ensures is_the_letter { result ≡ layer_letter layer }
{
    match layer {
        Layer::Line => b'L',
        Layer::Field => b'F',
        Layer::Book => b'B',
    }
}

/// Writes a text over the front of a buffer that has room for it, and says how long the text is.
fn write_front(buffer: &mut [u8], text: &[u8]) -> usize
    requires fits { length text.now ≤ length buffer.old }
    ensures length_of_the_text { result ≡ length text.now }
    ensures text_stands_at_the_front { buffer.new ≡ fronted text.now buffer.old }
    ensures text_is_that_front { take result buffer.new ≡ text.now }
{
    buffer[..text.len()].copy_from_slice(text);
    text.len()
}

// The two public writers say for themselves what they leave and write: whoever calls one reads one contract. Each looks at the
// buffer first, so that nothing is made for one that is too short.
/// Writes a number at the front of a buffer, and says how long it is; `None` where the buffer is too short for some.
pub fn write_number(buffer: &mut [u8], value: i64) -> Option<usize>
    ensures short_buffer_is_untouched { LeavesShort number_room buffer.old result buffer.new }
    ensures number_stands_at_the_front { WritesFront number_room (signed_decimal value) buffer.old result buffer.new }
    ensures number_fits_the_least_buffer { IfSome result (λ n. n ≤ number_room) }
    ensures reads_back { IfSome result (λ n. ReadsBack value (take n buffer.new)) }
{
    if buffer.len() < NUMBER_BYTES {
        return None;
    }
    Some(write_front(buffer, Buffer::new().format(value).as_bytes()))
}

/// Writes the line of a reply at the front of a buffer, and says how long it is; `None` where the buffer is too short.
pub fn write_line<R: Reply>(buffer: &mut [u8], number: u32, reply: &R) -> Option<usize>
    ensures short_buffer_is_untouched { LeavesShort line_room buffer.old result buffer.new }
    ensures line_stands_at_the_front { WritesFront line_room (line_of number (R.fields reply.now)) buffer.old result buffer.new }
    ensures line_fits_the_least_buffer { IfSome result (λ n. n ≤ line_room) }
    ensures line_falls_into_its_fields { OnSome result (FallsInto (line_of number (R.fields reply.now)) number (R.fields reply.now)) }
{
    if buffer.len() < ANSWER_BYTES {
        return None;
    }
    let mut line = reply.text();
    line.prepend_decimal(u64::from(number));
    Some(write_front(buffer, line.as_slice()))
}
