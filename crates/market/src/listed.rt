//! Settlement by a list of last days.
ghost use Rattle.std.specs.Prelude.{ℕ, suc, ◌<◌, ◌≤◌, length, slice_index};

mod checked;

/// The last days of settlement periods: at most 60, rising, none above 40,000.
#[derive(Drop)]
pub struct Listed {
    days: Vec<u32>,
    ghost short: { length days.items ≤ 60 },
    ghost rising: { (k : ℕ) → suc k < length days.items → slice_index days.items k < slice_index days.items (suc k) },
    ghost dated: { (k : ℕ) → k < length days.items → slice_index days.items k ≤ 40000 },
}

/// Why a list of last days is refused.
#[derive(Clone, Copy, Drop)]
pub enum ListFault {
    /// It has more than 60 days.
    TooLong,
    /// A day is not after the one before it.
    NotRising,
    /// A day is above 40,000.
    TooLate,
}
