//! MI-XBID.
ghost use Rattle.std.specs.Prelude.{◌≡◌, ◌-ℤ◌};
ghost use Rattle.market.specs.Rules.{xbid};
ghost use Rattle.market.specs.Laws.{xbid_lawful};

use crate::limits::filled_at_limits;
use crate::money::CellValue;
use crate::{Figures, MarketRule, OpenCell, Price, Vat};

#[derive(Clone, Copy, Drop)]
pub struct Xbid {
    /// Published like any reference price; the worth does not depend on it.
    pub reference: Price,
}

fn balance(figures: Figures) -> CellValue
    ensures is_earned_less_paid { result.value ≡ figures.amounts.earned -ℤ figures.amounts.paid }
{
    CellValue {
        value: figures.amounts.earned - figures.amounts.paid,
    }
}

impl MarketRule for Xbid {
    ghost meaning = { xbid };

    ghost lawful = { xbid_lawful };

    fn worth(&self, figures: Figures, vat: Vat) -> i64 {
        balance(figures).with_vat(vat)
    }

    fn exposure<D>(&self, cell: &OpenCell<'_, D>, vat: Vat) -> i64 {
        let filled = filled_at_limits(cell, |order| order.side.loses_at(i64::from(order.limit)));
        self.worth(filled, vat).min(0)
    }

    fn publish(&mut self, reference: Price) {
        self.reference = reference;
    }
}
