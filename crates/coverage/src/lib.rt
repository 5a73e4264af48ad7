//! Which guarantee and which credit can meet which debt, and how much is left: allocations, the capacity, and what it means.
//! Nothing here knows a price, a market rule or a table.
#![tactic(auto)]

mod admitted;
mod figures;
mod position;
mod rows;
mod worked;

pub use figures::Figures;
pub use position::Position;
pub use rows::{Credit, Debt, Guarantee};
pub use worked::{credit_for_the_later_debt, guarantee_that_ends_too_early};
