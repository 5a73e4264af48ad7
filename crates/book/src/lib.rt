//! The guarantee book of one market: its tables and its calls.
#![tactic(auto)]

mod fault;
mod tables;

pub use fault::OpenFault;
pub use tables::Book;
