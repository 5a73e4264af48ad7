//! The figures of a cell with some of its open orders filled whole at their limits.
ghost use Rattle.std.specs.Prelude.{◌≡◌, Bool};
ghost use Rattle.std.specs.Fn.{FnReturnsAt};
ghost use Rattle.market.specs.declared.orders.Order.{Order};
ghost use Rattle.market.specs.Limits.{loses, Takes, at_limits};
ghost use Rattle.market.specs.Cells.{its_orders};

use crate::{Figures, OpenCell, Order, Price, Proposal, Side};

impl Side {
    // whether a fill at that price lowers the worth
    pub(crate) fn loses_at(self, price: i64) -> bool
        ensures is_the_test { result ≡ loses self price }
    {
        match self {
            Side::Buy => price > 0,
            Side::Sell => price < 0,
        }
    }
}

pub(crate) fn filled_at_limits<D, F: Fn(&Order) -> bool>(
    cell: &OpenCell<'_, D>,
    is_chosen: F,
) -> Figures
    requires may_be_asked { F.IsAlwaysCallable is_chosen }
    ensures are_filled { (chosen : Order → Bool) → Takes (FnReturnsAt F.Fn is_chosen) chosen → result.amounts ≡ at_limits chosen cell.now.figures.amounts (its_orders cell.now) }
{
    let mut figures = cell.figures;
    for Proposal { order, .. } in cell.proposals {
        if order.is_open_in(cell.participant, cell.day) && is_chosen(order) {
            figures = figures.trade(order.side, order.kwh, Price { cents: order.limit });
        }
    }
    figures
}
