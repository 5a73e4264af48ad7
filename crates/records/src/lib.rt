//! The words of the guarantee book: its rows, its calls, its answers and its refusals.
#![tactic(auto)]

mod answer;
mod call;
mod fault;
mod rows;
mod search;

pub use answer::{Answer, Status};
pub use call::{Call, Terms};
pub use fault::{Fault, Layer, Refusal};
pub use rows::{Guarantee, GuaranteeKey, Participant};
pub use search::{Keyed, position};
