//! What a call that is carried out answers.

/// Whether a call did something new, or repeats a confirmation that was counted before.
#[derive(Clone, Copy)]
pub enum Status {
    New,
    CountedBefore,
}

/// A participant's position after a call, in grains: ten-millionths of a euro.
#[derive(Clone, Copy)]
pub struct Answer {
    pub status: Status,
    /// Minus what the debts of all periods exceed their credits by.
    pub exposure: i64,
    /// The sum of all credits.
    pub credit_position: i64,
    /// How much further debt the guarantees can cover today.
    pub capacity: i64,
}
