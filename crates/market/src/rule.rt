//! A market rule.
ghost use Rattle.std.specs.Prelude.{◌≡◌};
ghost use Rattle.market.specs.Rule.{Meaning, Lawful};
ghost use Rattle.market.specs.Cells.{its_orders};

use crate::{Figures, OpenCell, Price, Vat};

/// Tells what a cell is worth and what it may come to, in grains, while a published reference price stands.
// A VAT stands beside figures and beside a cell: the rate is the participant's, and neither holds it.
pub trait MarketRule {
    ghost meaning: { Meaning Self };

    /// The settled worth of figures, which open proposals do not change.
    fn worth(&self, figures: Figures, vat: Vat) -> i64
        ensures is_the_worth { result ≡ (meaning.valuation self.now).worth vat.percent figures.amounts };

    /// The smallest worth that a counted outcome of the open proposals leaves, or 0 if that is smaller.
    fn exposure<D>(&self, cell: &OpenCell<'_, D>, vat: Vat) -> i64
        ensures is_the_exposure { result ≡ (meaning.valuation self.now).exposure vat.percent cell.now.figures.amounts (its_orders cell.now) };

    /// Replaces the reference price.
    // No default body: it would need one more method, which lends the rule's price.
    fn publish(&mut self, reference: Price)
        ensures replaces_the_reference { self.new ≡ meaning.published self.old reference };

    ghost lawful: { Lawful meaning };
}
