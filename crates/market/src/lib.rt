//! Market rules and settlement calendars of the electricity exchange.
#![tactic(auto)]

mod any;
mod calendar;
mod figures;
mod limits;
mod listed;
mod money;
mod mpeg;
mod orders;
mod pce;
mod ranged;
mod rule;
mod units;
mod weeks;
mod xbid;

pub use any::Market;
pub use calendar::Calendar;
pub use figures::{Amounts, Figures, OpenCell};
pub use listed::{ListFault, Listed};
pub use mpeg::Mpeg;
pub use orders::{Order, Proposal, Side};
pub use pce::Pce;
pub use ranged::{exposure_of, worth_of};
pub use rule::MarketRule;
pub use units::{Price, Vat};
pub use weeks::Weeks;
pub use xbid::Xbid;

#[cfg(test)]
mod tests;
