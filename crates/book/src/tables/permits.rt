//! What the state of a book allows: each look answers the smallest number due, or the row that the call is about.

ghost use Rattle.std.specs.Prelude.{◌≡◌};
ghost use Rattle.records.specs.Refusals.{cleared, due};
ghost use Rattle.records.specs.Rows.{is_participant, is_guarantee};
ghost use Rattle.records.specs.Calls.{not_known, not_admissible, not_postable, not_returnable};
ghost use Rattle.book.specs.View.{state};
ghost use Rattle.reserved.specs.Reserved.{items};
ghost use Rattle.book.specs.Permits.{Permits, StandsAt};

use crate::tables::Book;
use records::{Fault, Guarantee, GuaranteeKey};

// Rows are told by their places: one that is lent for writing would keep the whole book lent.
impl<R, C> Book<R, C> {
    pub(super) fn known(&self, participant: u64) -> Result<usize, Fault>
        ensures fault_due_or_its_row { Permits (due (not_known (state self.now) participant)) (StandsAt (is_participant participant) (items self.now.participants)) result }
    {
        self.participant_at(participant)
            .ok_or(Fault::UnknownParticipant)
    }

    pub(super) fn may_admit(&self, participant: u64) -> Result<(), Fault>
        ensures fault_due { result ≡ cleared (due (not_admissible (state self.now) participant)) }
    {
        if self.participant_at(participant).is_some() {
            return Err(Fault::AlreadyAdmitted);
        }
        if self.participants.is_full() {
            return Err(Fault::TableFull);
        }
        Ok(())
    }

    /// For a guarantee that may be posted, where its participant's row stands.
    pub(super) fn may_post(&self, guarantee: &Guarantee) -> Result<usize, Fault>
        ensures fault_due_or_its_row { Permits (due (not_postable (state self.now) guarantee.now.participant guarantee.now.number guarantee.now.last_day)) (StandsAt (is_participant guarantee.now.participant) (items self.now.participants)) result }
    {
        let at = self.known(guarantee.participant)?;
        if guarantee.number <= self.participants.as_slice()[at].last_guarantee {
            return Err(Fault::NumberUsed);
        }
        if !guarantee.is_valid_on(self.today) {
            return Err(Fault::DayPast);
        }
        if self.guarantees.is_full() {
            return Err(Fault::TableFull);
        }
        Ok(at)
    }

    // Participant and number are the call's arguments; the key of both is made where a row is compared with it.
    /// For a guarantee that may be returned, where its row stands.
    pub(super) fn may_return(&self, participant: u64, number: u64) -> Result<usize, Fault>
        ensures fault_due_or_its_row { Permits (due (not_returnable (state self.now) participant number)) (StandsAt (is_guarantee participant number) (items self.now.guarantees)) result }
    {
        self.known(participant)?;
        let key = GuaranteeKey {
            participant,
            number,
        };
        records::position(self.guarantees.as_slice(), &key).ok_or(Fault::UnknownGuarantee)
    }
}
