//! The figures of a position, and whether an allocation covers its debts.
ghost use Rattle.std.specs.Prelude.{◌≡◌, ℕ, is_some, IfSome, Decides};
ghost use Rattle.coverage.specs.Admission.{Admissible, position_of};
ghost use Rattle.coverage.specs.Allocation.{Coverable};
ghost use Rattle.coverage.specs.Capacity.{exposure, credit_position, capacity, HoweverListed, SmallestOfTheDays};
ghost use Rattle.coverage.specs.Meaning.{CoveredExactlyFromZero, BelowZeroNoneCovers, LargestFurtherDebt, SmallestFurtherGuarantee, SmallerDebtsStayCovered, OnlySumsMatter};

use crate::position::Position;

/// What a participant is answered, in grains.
#[derive(Clone, Copy, Drop)]
pub struct Figures {
    pub exposure: i64,
    pub credit_position: i64,
    pub capacity: i64,
}

// Each of the three says for itself which positions it answers: whoever calls one reads one contract.
impl Position<'_> {
    /// The three figures; none where the position is past the limits.
    pub fn figures(&self) -> Option<Figures>
        ensures answered_exactly_within_the_limits { Decides (is_some result) (Admissible (position_of self.now)) }
        ensures exposure_is_minus_debts_above_credit { IfSome result (λ f. f.exposure ≡ exposure (position_of self.now)) }
        ensures credit_position_is_the_sum_of_all_credits { IfSome result (λ f. f.credit_position ≡ credit_position (position_of self.now)) }
        ensures capacity_is_the_smallest_of_the_days { IfSome result (λ f. f.capacity ≡ capacity (position_of self.now)) }
        ensures rows_matter_only_by_their_sums { OnlySumsMatter (position_of self.now) }
        ensures periods_may_be_listed_in_any_way { (day : ℕ) → HoweverListed (position_of self.now) day }
    {
        let position = self.admitted()?;
        Some(Figures {
            exposure: position.exposure(),
            credit_position: position.credited() as i64,
            capacity: position.capacity(),
        })
    }

    /// What the guarantees and credits leave for further debts, or lack for those there are; none where the position is past the limits.
    pub fn capacity(&self) -> Option<i64>
        ensures answered_exactly_within_the_limits { Decides (is_some result) (Admissible (position_of self.now)) }
        ensures is_the_capacity { IfSome result (λ c. c ≡ capacity (position_of self.now)) }
        ensures is_the_smallest_of_the_days { IfSome result (SmallestOfTheDays (position_of self.now)) }
        ensures an_allocation_covers_exactly_from_zero { IfSome result (CoveredExactlyFromZero (position_of self.now)) }
        ensures below_zero_no_allocation_covers { IfSome result (BelowZeroNoneCovers (position_of self.now)) }
        ensures from_zero_it_is_the_largest_further_debt { IfSome result (LargestFurtherDebt (position_of self.now)) }
        ensures below_zero_its_opposite_is_the_smallest_further_guarantee { IfSome result (SmallestFurtherGuarantee (position_of self.now)) }
    {
        Some(self.admitted()?.capacity())
    }

    /// Whether some allocation covers the debts; none where the position is past the limits.
    pub fn is_covered(&self) -> Option<bool>
        ensures answered_exactly_within_the_limits { Decides (is_some result) (Admissible (position_of self.now)) }
        ensures yes_exactly_when_an_allocation_covers { IfSome result (λ yes. Decides yes (Coverable (position_of self.now))) }
        ensures smaller_debts_stay_covered { SmallerDebtsStayCovered (position_of self.now) }
    {
        self.capacity().map(|capacity| capacity >= 0)
    }
}
