//! MPEG.
ghost use Rattle.std.specs.Prelude.{◌≡◌, ◌*◌, ◌≤◌, pos, ◌+ℤ◌, ◌-ℤ◌, ◌*ℤ◌, unsigned_abs};
ghost use Rattle.market.specs.Limits.{losing_on, at_limits};
ghost use Rattle.market.specs.Cells.{its_orders};
ghost use Rattle.market.specs.Rules.{mpeg, repriced};
ghost use Rattle.market.specs.Laws.{mpeg_lawful};

use crate::limits::filled_at_limits;
use crate::money::{CellValue, value_of};
use crate::{Figures, MarketRule, OpenCell, Price, Side, Vat};

#[derive(Clone, Copy, Drop)]
pub struct Mpeg {
    /// The check price.
    pub reference: Price,
}

impl Mpeg {
    // a value with the check price added to the price of each of its kWh
    fn repriced_value(self, value: i64, kwh: u32) -> i64
        requires value_of_a_cell { (unsigned_abs value ≤ kwh * 400000) × (kwh ≤ 100000000) }
        ensures has_the_check_price_on_each { result ≡ value +ℤ self.reference.cents *ℤ pos kwh }
        ensures is_in_range { unsigned_abs result ≤ kwh * 800000 }
    {
        value + value_of(kwh, self.reference)
    }

    fn repriced_balance(self, figures: Figures) -> CellValue
        ensures is_earned_less_paid { result.value ≡ (repriced self.reference.cents figures.amounts).earned -ℤ (repriced self.reference.cents figures.amounts).paid }
    {
        let earned = self.repriced_value(figures.amounts.earned, figures.amounts.sold);
        let paid = self.repriced_value(figures.amounts.paid, figures.amounts.bought);
        CellValue {
            value: earned - paid,
        }
    }

    // the figures with the losing orders of one side filled
    fn filled_on<D>(self, side: Side, cell: &OpenCell<'_, D>) -> Figures
        ensures are_filled { result.amounts ≡ at_limits (losing_on side self.reference.cents) cell.now.figures.amounts (its_orders cell.now) }
    {
        filled_at_limits(cell, |order| {
            order.side == side
                && side.loses_at(i64::from(order.limit) + i64::from(self.reference.cents))
        })
    }
}

impl MarketRule for Mpeg {
    ghost meaning = { mpeg };

    ghost lawful = { mpeg_lawful };

    fn worth(&self, figures: Figures, vat: Vat) -> i64 {
        self.repriced_balance(figures).with_vat(vat)
    }

    fn exposure<D>(&self, cell: &OpenCell<'_, D>, vat: Vat) -> i64 {
        let bought = self.worth(self.filled_on(Side::Buy, cell), vat);
        let sold = self.worth(self.filled_on(Side::Sell, cell), vat);
        bought.min(sold).min(0)
    }

    fn publish(&mut self, reference: Price) {
        self.reference = reference;
    }
}
