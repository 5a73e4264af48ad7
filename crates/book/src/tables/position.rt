//! A participant's position: what every call answers.

ghost use Rattle.std.specs.Prelude.{◌≡◌, ◌<◌, ◌≤◌, true, length, is_some, IfSome};
ghost use Rattle.records.specs.Rows.{amounts_in_range};
ghost use Rattle.records.specs.Capacity.{worth_on, guaranteed, position};
ghost use Rattle.records.specs.Capacity.{share_of as the_share_of};
ghost use Rattle.records.specs.Rows.{is_participant};
ghost use Rattle.records.specs.Tables.{find, place};
ghost use Rattle.records.specs.Calls.{known};
ghost use Rattle.reserved.specs.Reserved.{items};
ghost use Rattle.book.specs.View.{state};

use crate::tables::Book;
use records::{Answer, Guarantee, Status};

/// For whom and for which day guarantees are valued: at the participant's share in thousandths, less the margin in percent.
#[derive(Clone, Copy)]
struct Valuation {
    participant: u64,
    share: u64,
    margin: u64,
    day: u64,
    ghost share_in_range: { share ≤ 1000 },
    ghost margin_in_range: { margin ≤ 99 },
}

impl Valuation {
    // 0 for a guarantee that does not count, and no filter before the sum: so the definition counts it, guarantee by guarantee.
    /// The worth of a guarantee in grains, nothing where it is another participant's or no longer valid.
    fn worth(&self, guarantee: &Guarantee) -> u64
        requires amount_in_range { guarantee.now.cents ≤ 100000000000 }
        ensures value { result ≡ worth_on self.now.margin self.now.share self.now.participant self.now.day guarantee.now }
        ensures bound { result ≤ 10000000000000000 }
    {
        if guarantee.participant == self.participant && guarantee.is_valid_on(self.day) {
            guarantee.cents * self.share * (100 - self.margin)
        } else {
            0
        }
    }

    /// The worth of guarantees together.
    fn worth_of_all(&self, guarantees: &[Guarantee]) -> u64
        requires few { length guarantees.now ≤ 64 }
        requires amounts { amounts_in_range guarantees.now ≡ true }
        ensures value { result ≡ guaranteed self.now.margin self.now.share self.now.participant guarantees.now self.now.day }
        ensures bound { result ≤ 640000000000000000 }
    {
        guarantees
            .iter()
            .map(|guarantee| self.worth(guarantee))
            .sum()
    }
}

impl<R, C> Book<R, C> {
    /// Where a participant's row stands.
    pub(super) fn participant_at(&self, participant: u64) -> Option<usize>
        ensures first_match { result ≡ place (is_participant participant) (items self.now.participants) }
        ensures within { IfSome result (λ i. i < length (items self.now.participants)) }
        ensures where_known { known (state self.now) participant ≡ is_some result }
    {
        records::position(self.participants.as_slice(), &participant)
    }

    // 0 for none, as the definition has it: whoever asks has looked for the row before.
    /// A participant's share, 0 where there is no such participant.
    fn share_of(&self, participant: u64) -> u64
        ensures value { result ≡ the_share_of (find (is_participant participant) (items self.now.participants)) }
        ensures bound { result ≤ 1000 }
    {
        self.participant_at(participant)
            .map_or(0, |at| self.participants.as_slice()[at].share)
    }

    /// The position after a call. With no debts the capacity is the worth of the guarantees valid today: it falls from day
    /// to day, so that today's is the smallest since the first day.
    pub(super) fn position(&self, participant: u64) -> Answer
        ensures as_the_definition { result ≡ position (state self.now) participant }
    {
        let valuation = Valuation {
            participant,
            share: self.share_of(participant),
            margin: self.terms.margin,
            day: self.today,
        };
        Answer {
            status: Status::New,
            exposure: 0,
            credit_position: 0,
            capacity: valuation.worth_of_all(self.guarantees.as_slice()) as i64,
        }
    }
}
