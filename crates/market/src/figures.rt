//! The figures of a cell, and a cell with the proposals that are open in it.
ghost use Rattle.std.specs.Prelude.{◌+◌, ◌*◌, ◌≤◌, unsigned_abs};
ghost use Rattle.market.specs.Orders.{open_among, open_energy, LimitsInRange};

use crate::Proposal;

mod checked;

/// What was bought and sold: energy, and its value, which is kWh times price added up over fills.
#[derive(Clone, Copy, Drop)]
pub struct Amounts {
    pub bought: u32,
    /// The value of what was bought.
    pub paid: i64,
    pub sold: u32,
    /// The value of what was sold.
    pub earned: i64,
}

/// Amounts of a cell: at most 100,000,000 kWh, each at a price in range.
#[derive(Clone, Copy, Drop)]
pub struct Figures {
    pub amounts: Amounts,
    ghost few: { amounts.bought + amounts.sold ≤ 100000000 },
    ghost paid: { unsigned_abs amounts.paid ≤ amounts.bought * 400000 },
    ghost earned: { unsigned_abs amounts.earned ≤ amounts.sold * 400000 },
}

// Participant and flow day are two parts, here and in `is_open_in` and `room_beside`, as in `Order` and the definitions over it: a key
// of both would be taken apart wherever it came.
/// A cell of today: its figures, and a table of proposals in which those of its participant and flow day with energy open are its own.
#[derive(Drop)]
pub struct OpenCell<'a, D> {
    pub participant: u32,
    pub day: u32,
    pub figures: Figures,
    pub proposals: &'a [Proposal<D>],
    ghost few: { figures.amounts.bought + figures.amounts.sold + open_energy (open_among participant day proposals.now) ≤ 100000000 },
    ghost limits: { LimitsInRange (open_among participant day proposals.now) },
}
