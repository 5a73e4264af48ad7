//! A settlement calendar.
ghost use Rattle.std.specs.Prelude.{◌≡◌, ℕ, ◌≤◌};

/// Gives each flow day its settlement period.
pub trait Calendar {
    /// The period of each flow day, which is the same at every asking.
    ghost periods: { Self → ℕ → ℕ };

    fn period(&self, day: u32) -> u32
        ensures is_the_period_of_the_flow_day { result ≡ periods self.now day };

    ghost ranged: { (calendar : Self) (day : ℕ) → day ≤ 40000 → periods calendar day ≤ 40000 };
}
