//! The rows of the book's tables.
#![tactic(auto, unfolding(crate::specs::Rows::is_participant, crate::specs::Rows::is_guarantee))]

ghost use Rattle.std.specs.Prelude.{◌≡◌};
ghost use Rattle.records.specs.Rows.{valid, is_participant, is_guarantee};

use crate::search::Keyed;

/// A participant of the market, with the last numbers that it has used.
#[derive(Clone, Copy)]
pub struct Participant {
    pub number: u64,
    /// VAT in percent.
    pub vat: u64,
    /// The share of its guarantees that this market may use, in thousandths.
    pub share: u64,
    // 0 while none is used: numbers begin at 1, so that one comparison refuses a used number, with no case for none.
    pub last_proposal: u64,
    pub last_guarantee: u64,
}

/// A guarantee that a participant has posted.
#[derive(Clone, Copy)]
pub struct Guarantee {
    pub participant: u64,
    pub number: u64,
    pub cents: u64,
    /// The last trading day on which it is valid; one without a last day is valid on every day.
    pub last_day: Option<u64>,
}

/// Which guarantee of which participant.
#[derive(Clone, Copy)]
pub struct GuaranteeKey {
    pub participant: u64,
    pub number: u64,
}

impl Guarantee {
    // `coverage::Guarantee` says the same of its own row: neither crate builds on the other, and its days are 32 bits wide.
    /// Whether it may cover a debt of the trading day.
    pub fn is_valid_on(&self, day: u64) -> bool
        ensures up_to_the_last_day { result ≡ valid day self.now.last_day }
    {
        self.last_day.is_none_or(|last| day <= last)
    }
}

impl Keyed<u64> for Participant {
    ghost fits = { is_participant };

    fn has_key(&self, number: &u64) -> bool {
        self.number == *number
    }
}

impl Keyed<GuaranteeKey> for Guarantee {
    ghost fits = { λ key row. is_guarantee key.participant key.number row };

    // A row beside a key, two types: a derived equality would first have to make the row's key.
    fn has_key(&self, key: &GuaranteeKey) -> bool {
        self.participant == key.participant && self.number == key.number
    }
}
