//! The line call: a command line in, an answer or a refusal line out.
#![tactic(auto)]

mod command;
mod fault;
mod reading;
mod session;

pub use command::{Command, MarketName};
pub use fault::{LineFault, Refused};
pub use reading::read;
pub use session::Desk;
