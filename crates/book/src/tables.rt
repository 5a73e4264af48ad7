//! What a book holds: its terms, and its tables with room for all the rows that they may ever have.

ghost use Rattle.std.specs.Prelude.{◌≡◌, ◌≤◌, true};
ghost use Rattle.records.specs.Rows.{shares_in_range, amounts_in_range};
ghost use Rattle.reserved.specs.Reserved.{items};

use records::{Guarantee, Participant, Terms};
use reserved::Reserved;

mod calls;
mod open;
mod permits;
mod position;

const MAX_PARTICIPANTS: usize = 32;

const MAX_GUARANTEES: usize = 64;

/// The book of one market, over its rule and its settlement calendar.
#[derive(Drop)]
pub struct Book<R, C> {
    rule: R,
    calendar: C,
    terms: Terms,
    today: u64,
    // Vectors that are searched from the front, and no maps: a map promises no room back for a row that was removed, so that a
    // later call could want memory.
    participants: Reserved<Participant, MAX_PARTICIPANTS>,
    guarantees: Reserved<Guarantee, MAX_GUARANTEES>,
    ghost margin_in_range: { terms.margin ≤ 99 },
    ghost since_first_day: { terms.first_day ≤ today },
    ghost shares: { shares_in_range (items participants) ≡ true },
    ghost amounts: { amounts_in_range (items guarantees) ≡ true },
}
