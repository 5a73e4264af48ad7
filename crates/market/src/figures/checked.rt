//! Figures that are within the limits of a cell, and the room beside what is open in it.
ghost use Rattle.std.specs.Prelude.{◌≡◌, ◌+◌, ◌<◌, ◌≤◌, [], pos, ◌*ℤ◌, Some, None};
ghost use Rattle.market.specs.Units.{PriceRange};
ghost use Rattle.market.specs.Orders.{open_among, open_energy, LimitsInRange, WithinLimits};
ghost use Rattle.market.specs.Outcomes.{traded};

use crate::money::value_of;
use crate::{Amounts, Figures, Order, Price, Proposal, Side};

impl Figures {
    /// Figures of these amounts, unless a cell could not hold them.
    pub fn new(amounts: Amounts) -> Option<Figures>
        ensures holds_the_amounts_or_they_pass_a_limit { elim result [ Some figures ↦ figures.amounts ≡ amounts | None ↦ (WithinLimits amounts [] → ⊥) ] }
    {
        let Amounts {
            bought,
            paid,
            sold,
            earned,
        } = amounts;
        if u64::from(bought) + u64::from(sold) <= 100_000_000
            && paid.unsigned_abs() <= u64::from(bought) * 400_000
            && earned.unsigned_abs() <= u64::from(sold) * 400_000
        {
            Some(Figures { amounts })
        } else {
            None
        }
    }

    /// The figures with so many kWh more bought or sold, all at one price, unless the cell could not hold them.
    pub fn with_fill(self, side: Side, kwh: u32, price: Price) -> Option<Figures>
        ensures have_traded_more_or_pass_the_limit { elim result [ Some figures ↦ figures.amounts ≡ traded side kwh (price.cents *ℤ pos kwh) self.amounts | None ↦ 100000000 < self.amounts.bought + self.amounts.sold + kwh ] }
    {
        if kwh <= self.room() {
            Some(self.trade(side, kwh, price))
        } else {
            None
        }
    }

    /// How many kWh more a cell of these figures could hold, beside what is open in it among the proposals;
    /// nothing if it holds too much already, or one of its limits is no price.
    pub fn room_beside<D>(
        self,
        participant: u32,
        day: u32,
        proposals: &[Proposal<D>],
    ) -> Option<u32>
        ensures is_what_is_left_or_they_pass_a_limit { elim result [
          | Some room ↦ (self.amounts.bought + self.amounts.sold + open_energy (open_among participant day proposals.now) + room ≡ 100000000) × LimitsInRange (open_among participant day proposals.now)
          | None ↦ (WithinLimits self.amounts (open_among participant day proposals.now) → ⊥)
        ] }
    {
        let mut room = self.room();
        for Proposal { order, .. } in proposals {
            if order.is_open_in(participant, day) {
                room = room_below(room, order)?;
            }
        }
        Some(room)
    }

    // how many kWh more a cell of these figures could hold with nothing open in it
    fn room(self) -> u32
        ensures is_what_is_left { self.amounts.bought + self.amounts.sold + result ≡ 100000000 }
    {
        100_000_000 - self.amounts.bought - self.amounts.sold
    }

    // the figures with so many kWh bought or sold besides, all at that price
    // Side, kWh and price are three arguments: a struct of them would be made at each call only to be taken apart here.
    pub(crate) fn trade(self, side: Side, kwh: u32, price: Price) -> Figures
        requires room_in_the_cell { self.amounts.bought + self.amounts.sold + kwh ≤ 100000000 }
        ensures have_traded_more { result.amounts ≡ traded side kwh (price.cents *ℤ pos kwh) self.amounts }
    {
        let value = value_of(kwh, price);
        let amounts = match side {
            Side::Buy => Amounts {
                bought: self.amounts.bought + kwh,
                paid: self.amounts.paid + value,
                ..self.amounts
            },
            Side::Sell => Amounts {
                sold: self.amounts.sold + kwh,
                earned: self.amounts.earned + value,
                ..self.amounts
            },
        };
        Figures { amounts }
    }
}

// the room for open energy that is left below an order of the cell, if it fits and its limit is a price
fn room_below(room: u32, order: &Order) -> Option<u32>
    ensures is_what_is_left_or_it_does_not_fit { elim result [
      | Some left ↦ (left + order.now.kwh ≡ room) × PriceRange order.now.limit
      | None ↦ ((order.now.kwh ≤ room) × PriceRange order.now.limit → ⊥)
    ] }
{
    Price::new(order.limit)?;
    room.checked_sub(order.kwh)
}
