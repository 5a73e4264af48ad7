//! Settlement by weeks.
ghost use Rattle.market.specs.Calendars.{week};
ghost use Rattle.std.proofs.Common.{rules};

use crate::Calendar;

#[derive(Clone, Copy, Drop)]
pub struct Weeks;

impl Calendar for Weeks {
    ghost periods = { λ weeks day. week day };

    ghost ranged = { Prim.search rules };

    fn period(&self, day: u32) -> u32 {
        day / 7
    }
}
