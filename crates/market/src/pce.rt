//! PCE.
ghost use Rattle.std.specs.Prelude.{◌≡◌, ◌*◌, pos, neg_ℤ};
ghost use Rattle.market.specs.Rules.{pce, cct, imbalance};
ghost use Rattle.market.specs.Laws.{pce_lawful};

use crate::limits::filled_at_limits;
use crate::money::CellValue;
use crate::{Figures, MarketRule, OpenCell, Price, Vat};

#[derive(Clone, Copy, Drop)]
pub struct Pce {
    /// The estimated CCT.
    pub reference: Price,
}

// an estimate below 0 counts as 0
fn counted_cct(estimate: Price) -> u32
    ensures is_the_cct { result ≡ cct estimate.cents }
{
    estimate.cents.max(0).unsigned_abs()
}

// minus what is out of balance times the CCT
fn imbalance_value(figures: Figures, estimate: Price) -> CellValue
    ensures is_minus_imbalance_times_cct { result.value ≡ neg_ℤ (pos (imbalance figures.amounts * cct estimate.cents)) }
{
    let imbalance = figures.amounts.sold.abs_diff(figures.amounts.bought);
    CellValue {
        value: -(i64::from(imbalance) * i64::from(counted_cct(estimate))),
    }
}

impl MarketRule for Pce {
    ghost meaning = { pce };

    ghost lawful = { pce_lawful };

    fn worth(&self, figures: Figures, vat: Vat) -> i64 {
        imbalance_value(figures, self.reference).with_vat(vat)
    }

    fn exposure<D>(&self, cell: &OpenCell<'_, D>, vat: Vat) -> i64 {
        self.worth(filled_at_limits(cell, |_| true), vat)
    }

    fn publish(&mut self, reference: Price) {
        self.reference = reference;
    }
}
