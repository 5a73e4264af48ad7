//! The opening of a book.

ghost use Rattle.book.specs.Opening.{Opens};

use crate::fault::OpenFault;
use crate::tables::Book;
use market::{Calendar, MarketRule, Price};
use records::Terms;
use reserved::Reserved;
use std::alloc::Global;

impl<R: MarketRule + Drop, C: Calendar + Drop> Book<R, C> {
    /// Checks the terms, then makes an empty book of them, with memory for all its rows: no later call wants any. The
    /// reference price is published to the market rule.
    pub fn open(
        heap: Global,
        mut rule: R,
        calendar: C,
        terms: Terms,
    ) -> Result<Book<R, C>, OpenFault>
        ensures empty_on_its_terms_or_refused { Opens R.MarketRule.meaning rule calendar terms result }
    {
        terms.check()?;
        let participants = Reserved::new(heap)?;
        let guarantees = Reserved::new(heap)?;
        rule.publish(Price {
            cents: terms.reference as i32,
        });
        Ok(Book {
            rule,
            calendar,
            terms,
            today: terms.first_day,
            participants,
            guarantees,
        })
    }
}
