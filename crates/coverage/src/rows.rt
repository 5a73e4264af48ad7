//! Debts, credits and guarantees as plain amounts, in grains.
ghost use Rattle.std.specs.Prelude.{◌≡◌};
ghost use Rattle.coverage.specs.Allocation.{valid};

/// So many grains owed for what was traded on one day, to be settled in one period.
#[derive(Clone, Copy, Drop)]
pub struct Debt {
    pub day: u32,
    pub period: u32,
    pub grains: u64,
}

/// So many grains earned in one settlement period, for debts of that period.
#[derive(Clone, Copy, Drop)]
pub struct Credit {
    pub period: u32,
    pub grains: u64,
}

/// So many grains that stand for debts of the trading days up to and with the last one; without a last day, of every day.
#[derive(Clone, Copy, Drop)]
pub struct Guarantee {
    pub last: Option<u32>,
    pub worth: u64,
}

impl Guarantee {
    // `records::Guarantee` says the same of its own row: neither crate builds on the other, and its days are 64 bits wide.
    /// Whether it may be given to a debt of this trading day.
    pub fn is_valid_on(&self, day: u32) -> bool
        ensures valid_up_to_the_last_day { result ≡ valid self.now day }
    {
        self.last.is_none_or(|last| day <= last)
    }
}
