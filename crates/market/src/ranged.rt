//! Worth and exposure under any market rule, with the range that its laws give them.
ghost use Rattle.std.specs.Prelude.{◌≡◌, ◌≤◌, pos, ◌≤ℤ◌, unsigned_abs};
ghost use Rattle.market.specs.Cells.{its_orders};

use crate::{Figures, MarketRule, OpenCell, Vat};

pub fn worth_of<R: MarketRule>(rule: &R, figures: Figures, vat: Vat) -> i64
    ensures is_the_worth { result ≡ (R.MarketRule.meaning.valuation rule.now).worth vat.percent figures.amounts }
    ensures is_in_range { unsigned_abs result ≤ 32000000000000000 }
{
    rule.worth(figures, vat)
}

pub fn exposure_of<R: MarketRule, D>(rule: &R, cell: &OpenCell<'_, D>, vat: Vat) -> i64
    ensures is_the_exposure { result ≡ (R.MarketRule.meaning.valuation rule.now).exposure vat.percent cell.now.figures.amounts (its_orders cell.now) }
    ensures is_in_range { unsigned_abs result ≤ 32000000000000000 }
    ensures is_at_most_0 { result ≤ℤ pos 0 }
{
    rule.exposure(cell, vat)
}
