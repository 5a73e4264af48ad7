//! One participant's position, and whether it is one that the figures are worked out for.
ghost use Rattle.std.specs.Prelude.{◌+◌, ◌≤◌, length, Decides};
ghost use Rattle.std.specs.List.{AllByRecursion};
ghost use Rattle.coverage.specs.Admission.{Admissible, position_of};

use crate::rows::{Credit, Debt, Guarantee};

const ROWS: usize = 256;

const GUARANTEES: usize = 64;

const GRAINS: u64 = 32_000_000_000_000_000;

const WORTH: u64 = 10_000_000_000_000_000;

/// The participant's debts, credits and guarantees, lent, with the first day of the book and today.
#[derive(Clone, Copy, Drop)]
pub struct Position<'a> {
    pub debts: &'a [Debt],
    pub credits: &'a [Credit],
    pub guarantees: &'a [Guarantee],
    pub first_day: u32,
    pub today: u32,
}

impl Position<'_> {
    /// Whether its rows are few and small enough, and its debts of days from the first to today.
    pub fn is_admissible(&self) -> bool
        ensures exactly_when_within_the_limits { Decides result (Admissible (position_of self.now)) }
    {
        self.is_small()
            && self.debts_in_range()
            && self.credits_in_range()
            && self.guarantees_in_range()
    }

    /// Whether its lists are short enough, and its first day not after today.
    fn is_small(&self) -> bool
        ensures short_lists_and_days_in_order { Decides result ((self.now.first_day ≤ self.now.today)
            × (length self.now.debts.now + length self.now.credits.now ≤ 256)
            × (length self.now.guarantees.now ≤ 64)) }
    {
        self.first_day <= self.today
            && self.debts.len() + self.credits.len() <= ROWS
            && self.guarantees.len() <= GUARANTEES
    }

    fn debts_in_range(&self) -> bool
        ensures each_of_a_day_and_amount_in_range { Decides result (AllByRecursion (λ x. (self.now.first_day ≤ x.day) × (x.day ≤ self.now.today) × (x.grains ≤ 32000000000000000)) self.now.debts.now) }
    {
        let days = self.first_day..=self.today;
        self.debts
            .iter()
            .all(|debt| days.contains(&debt.day) && debt.grains <= GRAINS)
    }

    fn credits_in_range(&self) -> bool
        ensures each_amount_in_range { Decides result (AllByRecursion (λ c. c.grains ≤ 32000000000000000) self.now.credits.now) }
    {
        self.credits.iter().all(|credit| credit.grains <= GRAINS)
    }

    fn guarantees_in_range(&self) -> bool
        ensures each_worth_in_range { Decides result (AllByRecursion (λ g. g.worth ≤ 10000000000000000) self.now.guarantees.now) }
    {
        self.guarantees
            .iter()
            .all(|guarantee| guarantee.worth <= WORTH)
    }
}
