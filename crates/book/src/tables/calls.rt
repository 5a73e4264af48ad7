//! The calls of an open book. Each checks its own arguments, then looks at the book's state, and only then changes it: what
//! the look has found is why no `unwrap` can fail, as the proofs show.

ghost use Rattle.std.specs.Prelude.{◌≡◌, ℕ, true, pos, is_err, IfOk};
ghost use Rattle.records.specs.Calls.{Performs};
ghost use Rattle.records.specs.Capacity.{guaranteed_on, LeastOver};
ghost use Rattle.book.specs.View.{state, SameMemory};

use crate::tables::Book;
use records::{Answer, Call, Fault, Guarantee, Participant};

// Each call says for itself what it promises of the book: one word for the three lines would hide them.
impl<R, C> Book<R, C> {
    /// Admits a participant with its VAT in percent and its share in thousandths.
    pub fn admit(&mut self, participant: u64, vat: u64, share: u64) -> Result<Answer, Fault>
        ensures performed_or_refused { Performs (Call.Admit participant vat share) (state self.old) result (state self.new) }
        ensures refused_book_is_unchanged { is_err result ≡ true → self.new ≡ self.old }
        ensures memory_is_that_of_open { SameMemory self.old self.new }
    {
        Call::Admit {
            participant,
            vat,
            share,
        }
        .check()?;
        self.may_admit(participant)?;
        self.participants
            .push(Participant {
                number: participant,
                vat,
                share,
                last_proposal: 0,
                last_guarantee: 0,
            })
            .unwrap();
        Ok(self.position(participant))
    }

    /// Posts a guarantee of so many cents, valid up to its last day or, with none, on every day.
    pub fn post(
        &mut self,
        participant: u64,
        guarantee: u64,
        last_day: Option<u64>,
        cents: u64,
    ) -> Result<Answer, Fault>
        ensures performed_or_refused { Performs (Call.Post participant guarantee last_day cents) (state self.old) result (state self.new) }
        ensures refused_book_is_unchanged { is_err result ≡ true → self.new ≡ self.old }
        ensures memory_is_that_of_open { SameMemory self.old self.new }
    {
        Call::Post {
            participant,
            guarantee,
            last_day,
            cents,
        }
        .check()?;
        let row = Guarantee {
            participant,
            number: guarantee,
            cents,
            last_day,
        };
        let at = self.may_post(&row)?;
        self.participants.get_mut(at).unwrap().last_guarantee = guarantee;
        self.guarantees.push(row).unwrap();
        Ok(self.position(participant))
    }

    /// Returns a guarantee to its participant; its number stays used.
    pub fn return_guarantee(&mut self, participant: u64, guarantee: u64) -> Result<Answer, Fault>
        ensures performed_or_refused { Performs (Call.Return participant guarantee) (state self.old) result (state self.new) }
        ensures refused_book_is_unchanged { is_err result ≡ true → self.new ≡ self.old }
        ensures memory_is_that_of_open { SameMemory self.old self.new }
    {
        Call::Return {
            participant,
            guarantee,
        }
        .check()?;
        let at = self.may_return(participant, guarantee)?;
        let _ = self.guarantees.remove(at);
        Ok(self.position(participant))
    }

    /// A participant's position.
    pub fn query(&self, participant: u64) -> Result<Answer, Fault>
        ensures answered_or_refused { Performs (Call.Query participant) (state self.now) result (state self.now) }
        ensures capacity_is_least_since_the_first_day { IfOk result (λ answer. (n : ℕ) × (answer.capacity ≡ pos n) × LeastOver (guaranteed_on (state self.now) participant) self.now.terms.first_day self.now.today n) }
    {
        Call::Query { participant }.check()?;
        self.known(participant)?;
        Ok(self.position(participant))
    }

    /// Any of the calls.
    pub fn call(&mut self, call: Call) -> Result<Answer, Fault>
        ensures performed_or_refused { Performs call (state self.old) result (state self.new) }
        ensures refused_book_is_unchanged { is_err result ≡ true → self.new ≡ self.old }
        ensures memory_is_that_of_open { SameMemory self.old self.new }
    {
        match call {
            Call::Admit {
                participant,
                vat,
                share,
            } => self.admit(participant, vat, share),
            Call::Post {
                participant,
                guarantee,
                last_day,
                cents,
            } => self.post(participant, guarantee, last_day, cents),
            Call::Return {
                participant,
                guarantee,
            } => self.return_guarantee(participant, guarantee),
            Call::Query { participant } => self.query(participant),
        }
    }
}
