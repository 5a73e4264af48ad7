//! A position that was found within the limits: its sums, which fit 63 bits, and the figures that are made of them.
ghost use Rattle.std.specs.Prelude.{◌≡◌, ◌^◌, ◌<◌, ◌≤◌, sum_by, is_some, IfSome, Decides};
ghost use Rattle.coverage.specs.Admission.{Admissible, position_of};
ghost use Rattle.coverage.specs.Allocation.{amount_if};
ghost use Rattle.coverage.specs.Capacity.{owed, credited, guaranteed, excess, owes_in, uncredited, exposure, capacity_at, capacity, SmallestOfTheDays};

use crate::position::Position;
use crate::rows::Debt;

/// A position within the limits, so that its days are in order and its sums fit.
#[derive(Drop)]
pub(crate) struct Admitted<'a> {
    position: Position<'a>,
    ghost days_in_order: { position.first_day ≤ position.today },
    ghost debts_fit: { sum_by (λ x. x.grains) position.debts.now < 2 ^ 63 },
    ghost credits_fit: { sum_by (λ c. c.grains) position.credits.now < 2 ^ 63 },
    ghost guarantees_fit: { sum_by (λ g. g.worth) position.guarantees.now < 2 ^ 63 },
}

impl Position<'_> {
    /// The position for its figures; none where it is past the limits.
    pub(crate) fn admitted(&self) -> Option<Admitted<'_>>
        ensures exactly_when_within_the_limits { Decides (is_some result) (Admissible (position_of self.now)) }
        ensures of_this_position { IfSome result (λ a. a.position ≡ self.now) }
    {
        if self.is_admissible() {
            Some(Admitted { position: *self })
        } else {
            None
        }
    }
}

// That a sum fits 63 bits is ensured by the three sums that are turned into signed numbers: a type for it would be opened at once.
impl Admitted<'_> {
    /// Minus what all debts exceed the credits by: every debt is of day 0 or later.
    pub(crate) fn exposure(&self) -> i64
        ensures minus_debts_above_credit { result ≡ exposure (position_of self.now.position) }
    {
        -(self.uncredited_from(0) as i64)
    }

    /// What all credits come to.
    pub(crate) fn credited(&self) -> u64
        ensures sum_of_all { result ≡ sum_by (λ c. c.grains) self.now.position.credits.now }
        ensures fits { result < 2 ^ 63 }
    {
        self.position
            .credits
            .iter()
            .map(|credit| credit.grains)
            .sum()
    }

    /// The smallest capacity of the days from the first to today.
    pub(crate) fn capacity(&self) -> i64
        ensures is_the_capacity { result ≡ capacity (position_of self.now.position) }
        ensures smallest_of_the_days { SmallestOfTheDays (position_of self.now.position) result }
    {
        (self.position.first_day..self.position.today)
            .map(|day| self.capacity_at(day))
            .fold(self.capacity_at(self.position.today), i64::min)
    }

    /// What the guarantees valid on a day leave after the debts of that day or later.
    fn capacity_at(&self, day: u32) -> i64
        ensures valid_guarantees_less_debts_above_credit { result ≡ capacity_at (position_of self.now.position) day }
    {
        self.guaranteed_on(day) as i64 - self.uncredited_from(day) as i64
    }

    /// What the guarantees that are valid on a day are worth.
    fn guaranteed_on(&self, day: u32) -> u64
        ensures sum_of_the_valid { result ≡ guaranteed self.now.position.guarantees.now day }
        ensures fits { result < 2 ^ 63 }
    {
        self.position
            .guarantees
            .iter()
            .map(|guarantee| amount_if(guarantee.is_valid_on(day), guarantee.worth))
            .sum()
    }

    /// What the debts of a day or later exceed the credits by, period by period.
    fn uncredited_from(&self, day: u32) -> u64
        ensures sum_over_the_periods { result ≡ uncredited (position_of self.now.position) day }
        ensures fits { result < 2 ^ 63 }
    {
        // Not a chain, which would have to count places: whether a debt's period counts depends on the debts after it.
        let mut sum: u64 = 0;
        let mut rest = self.position.debts;
        while let Some((debt, after)) = rest.split_first() {
            if !owes_in(after, debt.period) {
                sum += self.excess_in(day, debt.period);
            }
            rest = after;
        }
        sum
    }

    /// What the debts of a period, of a day or later, exceed its credit by.
    fn excess_in(&self, day: u32, period: u32) -> u64
        ensures debts_above_credit { result ≡ excess (position_of self.now.position) day period }
    {
        self.owed_from(day, period)
            .saturating_sub(self.credited_in(period))
    }

    /// What the debts of a period that are of a day or later come to.
    fn owed_from(&self, day: u32, period: u32) -> u64
        ensures sum_of_the_due { result ≡ owed self.now.position.debts.now day period }
    {
        self.position
            .debts
            .iter()
            .map(|debt| amount_if(debt.period == period && day <= debt.day, debt.grains))
            .sum()
    }

    /// What the credits of a period come to.
    fn credited_in(&self, period: u32) -> u64
        ensures sum_of_the_period { result ≡ credited self.now.position.credits.now period }
    {
        self.position
            .credits
            .iter()
            .map(|credit| amount_if(credit.period == period, credit.grains))
            .sum()
    }
}

// Not a `filter` before the sum: it was compiled to a loop in a loop, and a capacity took up to half as long again.
/// An amount where the test passes, and else 0.
fn amount_if(test: bool, amount: u64) -> u64
    ensures all_of_it_or_nothing { result ≡ amount_if test amount }
{
    if test { amount } else { 0 }
}

/// Whether one of the debts is of a period.
fn owes_in(debts: &[Debt], period: u32) -> bool
    ensures some_debt_of_the_period { result ≡ owes_in debts.now period }
{
    debts.iter().any(|debt| debt.period == period)
}
