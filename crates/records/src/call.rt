//! The calls of the book with their arguments, and the check of what they say by themselves.
#![tactic(auto, unfolding(crate::specs::Refusals::outside, crate::specs::Calls::price_outside))]

ghost use Rattle.std.specs.Prelude.{◌≡◌, not};
ghost use Rattle.records.specs.Refusals.{cleared, due, fault_if};
ghost use Rattle.records.specs.Calls.{input, terms_input};

use crate::fault::Fault;

/// The terms on which a book is opened.
#[derive(Clone, Copy)]
pub struct Terms {
    /// The maintenance margin in percent.
    pub margin: u64,
    pub first_day: u64,
    /// The market rule's reference price in cents per MWh.
    pub reference: i64,
}

// The arguments stand here and at the book's methods, by the project's rules: a call is a value for whoever reads it from a line, and a
// method for whoever writes it.
/// A call of an open book. Arguments are as wide as a line can write them; each call checks its own.
#[derive(Clone, Copy)]
pub enum Call {
    Admit {
        participant: u64,
        vat: u64,
        share: u64,
    },
    Post {
        participant: u64,
        guarantee: u64,
        last_day: Option<u64>,
        cents: u64,
    },
    Return {
        participant: u64,
        guarantee: u64,
    },
    Query {
        participant: u64,
    },
}

const MAX_PARTICIPANT: u64 = 65_535;

const MAX_GUARANTEE: u64 = 4_294_967_295;

const MAX_PERCENT: u64 = 99;

const MAX_SHARE: u64 = 1_000;

const MAX_CENTS: u64 = 100_000_000_000;

const MAX_DAY: u64 = 40_000;

const MAX_PRICE: u64 = 400_000;

// `holds.then_some(()).ok_or(fault)` says the same at more length wherever it is used.
/// The fault, unless the condition holds.
fn ensure(holds: bool, fault: Fault) -> Result<(), Fault>
    ensures fault_unless_it_holds { result ≡ fault_if (not holds) fault }
{
    if holds { Ok(()) } else { Err(fault) }
}

/// The number of a participant.
fn check_participant(participant: u64) -> Result<(), Fault>
    ensures fault_due_for_the_input { result ≡ cleared (due (input (Call.Query participant))) }
{
    ensure(
        (1..=MAX_PARTICIPANT).contains(&participant),
        Fault::NumberOutOfRange { place: 2 },
    )
}

/// The numbers of a participant and of its guarantee.
fn check_guarantee(participant: u64, guarantee: u64) -> Result<(), Fault>
    ensures fault_due_for_the_input { result ≡ cleared (due (input (Call.Return participant guarantee))) }
{
    check_participant(participant)?;
    ensure(
        (1..=MAX_GUARANTEE).contains(&guarantee),
        Fault::NumberOutOfRange { place: 3 },
    )
}

// What is due is said of each check by itself: each equals its own part of one definition.
impl Terms {
    /// The smallest number due for what the terms say by themselves, with its leftmost place.
    pub fn check(self) -> Result<(), Fault>
        ensures fault_due_for_the_input { result ≡ cleared (due (terms_input self)) }
    {
        ensure(
            self.reference.unsigned_abs() <= MAX_PRICE,
            Fault::PriceOutOfRange { place: 5 },
        )?;
        ensure(
            self.margin <= MAX_PERCENT,
            Fault::RateOutOfRange { place: 3 },
        )?;
        ensure(
            self.first_day <= MAX_DAY,
            Fault::DayOutOfRange { place: Some(4) },
        )
    }
}

impl Call {
    /// The smallest number due for what the call says by itself, with its leftmost place.
    pub fn check(self) -> Result<(), Fault>
        ensures fault_due_for_the_input { result ≡ cleared (due (input self)) }
    {
        match self {
            Call::Admit {
                participant,
                vat,
                share,
            } => {
                check_participant(participant)?;
                ensure(vat <= MAX_PERCENT, Fault::RateOutOfRange { place: 3 })?;
                ensure(share <= MAX_SHARE, Fault::RateOutOfRange { place: 4 })
            }
            Call::Post {
                participant,
                guarantee,
                last_day,
                cents,
            } => {
                check_guarantee(participant, guarantee)?;
                ensure(
                    (1..=MAX_CENTS).contains(&cents),
                    Fault::AmountOutOfRange { place: 5 },
                )?;
                ensure(
                    last_day.is_none_or(|day| day <= MAX_DAY),
                    Fault::DayOutOfRange { place: Some(4) },
                )
            }
            Call::Return {
                participant,
                guarantee,
            } => check_guarantee(participant, guarantee),
            Call::Query { participant } => check_participant(participant),
        }
    }
}
