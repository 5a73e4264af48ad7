//! The fields of a command line: parts of the lent text, never copies.
ghost use Rattle.std.specs.Prelude.{◌≡◌, ◌==◌, length, position};
ghost use Rattle.std.specs.Iterator.{item_count};
ghost use Rattle.wire.specs.Fields.{comma, fields, remaining, place, OneSplit, HandsOut};

use memchr::memchr_iter;

/// A field with its place in the line, where the command's letter has place 1. Places past 255 count as 255.
#[derive(Clone, Copy)]
pub struct Field<'a> {
    pub place: u8,
    pub bytes: &'a [u8],
}

// Not the library's `split`: what stands before the first comma is no field, and places are counted in a byte that stays at 255.
/// Hands out the fields of a lent text one after another. Each comma begins a field, which goes up to the next
/// comma or to the end; what stands before the first comma belongs to no field.
#[derive(Drop)]
pub struct Reader<'a> {
    rest: &'a [u8],
    place: u8,
}

/// Where the first comma stands.
fn comma_at(text: &[u8]) -> Option<usize>
    ensures first_comma { result ≡ position (λ byte. byte == comma) text.now }
{
    text.iter().position(|byte| *byte == b',')
}

/// How many fields the text after a command's letter has.
pub fn count_fields(text: &[u8]) -> usize
    ensures counts_the_fields { result ≡ length (fields text.now) }
{
    // Not the library's `filter` and `count`: compiled to a loop in a loop, they took two to three times as long as a loop by hand.
    memchr_iter(b',', text).count()
}

impl<'a> Reader<'a> {
    /// A reader of the text that follows a command's letter.
    pub fn new(text: &'a [u8]) -> Reader<'a>
        ensures all_fields_remain { remaining result ≡ fields text.now }
        ensures stands_at_the_letter { place result ≡ 1 }
        ensures splits_in_one_way { OneSplit text.now }
    {
        Reader {
            rest: text,
            place: 1,
        }
    }
}

impl<'a> Iterator for Reader<'a> {
    type Item = Field<'a>;

    ghost next_gives = { HandsOut };

    ghost remaining = { item_count remaining };

    /// The next field, or `None` where none remains.
    fn next(&mut self) -> Option<Field<'a>> {
        let text = self.rest;
        let comma = comma_at(text)?;
        let after = &text[comma + 1..];
        let end = comma_at(after).unwrap_or(after.len());
        self.rest = &after[end..];
        self.place = self.place.saturating_add(1);
        Some(Field {
            place: self.place,
            bytes: &after[..end],
        })
    }
}
