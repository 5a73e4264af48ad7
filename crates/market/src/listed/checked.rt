//! A list of last days, checked, and its periods.
ghost use Rattle.std.specs.Prelude.{◌≡◌, not, Ok, Err, MatchBool, nat_lt, refl};
ghost use Rattle.market.specs.Calendars.{Rising, InCalendar, Due, last_days_before};
ghost use Rattle.std.proofs.Common.{arith};
ghost use Rattle.std.proofs.lemmas.List.Filters.{length-filter_both};

use crate::{Calendar, ListFault, Listed};

fn rises(days: &[u32]) -> bool
    ensures tells_whether { MatchBool result (Rising days.now) (Rising days.now → ⊥) }
{
    days.is_sorted_by(|last, next| *last < *next)
}

fn is_in_calendar(days: &[u32]) -> bool
    ensures tells_whether { MatchBool result (InCalendar days.now) (InCalendar days.now → ⊥) }
{
    days.iter().all(|last| *last <= 40_000)
}

impl Listed {
    pub fn new(days: Vec<u32>) -> Result<Listed, ListFault>
        ensures holds_the_days_or_tells_the_fault { elim result [ Ok listed ↦ listed.days.items ≡ days.items | Err fault ↦ Due fault days.items ] }
    {
        if days.len() > 60 {
            return Err(ListFault::TooLong);
        }
        if !rises(&days) {
            return Err(ListFault::NotRising);
        }
        if !is_in_calendar(&days) {
            return Err(ListFault::TooLate);
        }
        Ok(Listed { days })
    }
}

impl Calendar for Listed {
    ghost periods = { λ listed day. last_days_before day listed.days.items };

    // a list of 60 days has no more than 60 days before another
    ghost ranged = { λ listed day h. omega (arith, length-filter_both (λ last. nat_lt last day) (λ last. not (nat_lt last day)) (λ last. refl) listed.days.items, listed.short) };

    fn period(&self, day: u32) -> u32 {
        self.days.partition_point(|last| *last < day) as u32
    }
}
