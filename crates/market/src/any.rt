//! One market of the three, for a book that learns which when it runs.
ghost use Rattle.market.specs.Rules.{any};
ghost use Rattle.market.specs.Laws.{any_lawful};

use crate::{Figures, MarketRule, Mpeg, OpenCell, Pce, Price, Vat, Xbid};

// An enum and no `dyn`: the exposure is generic over what proposals keep beside their orders.
#[derive(Clone, Copy, Drop)]
pub enum Market {
    Xbid(Xbid),
    Mpeg(Mpeg),
    Pce(Pce),
}

impl MarketRule for Market {
    ghost meaning = { any };

    ghost lawful = { any_lawful };

    fn worth(&self, figures: Figures, vat: Vat) -> i64 {
        match self {
            Market::Xbid(rule) => rule.worth(figures, vat),
            Market::Mpeg(rule) => rule.worth(figures, vat),
            Market::Pce(rule) => rule.worth(figures, vat),
        }
    }

    fn exposure<D>(&self, cell: &OpenCell<'_, D>, vat: Vat) -> i64 {
        match self {
            Market::Xbid(rule) => rule.exposure(cell, vat),
            Market::Mpeg(rule) => rule.exposure(cell, vat),
            Market::Pce(rule) => rule.exposure(cell, vat),
        }
    }

    fn publish(&mut self, reference: Price) {
        match self {
            Market::Xbid(rule) => rule.publish(reference),
            Market::Mpeg(rule) => rule.publish(reference),
            Market::Pce(rule) => rule.publish(reference),
        }
    }
}
