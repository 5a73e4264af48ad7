//! The forms in which numbers, prices, last days and letters stand in a field.
ghost use Rattle.std.specs.Prelude.{◌≡◌, ℕ, ◌^◌, ◌<◌, List, Option, IfSome};
ghost use Rattle.wire.specs.Numbers.{Number, Price, LastDay, Letter, ReadsExactly};
ghost use Rattle.wire.specs.Numbers.{number_of, price_of, last_day_of, letter_of};

/// A number of at most this many digits is in the form.
const MOST_DIGITS: usize = 12;

/// A value that stands in a field in a form of its own.
pub trait Form: Sized {
    // The value that a field holds, if it holds one in the form.
    ghost value_of: { List ℕ → Option Self };

    // Holds of a value and the bytes that it is written in.
    ghost IsWriting: { List ℕ → Self → Type 0 };

    /// The value of a whole field.
    fn read(bytes: &[u8]) -> Option<Self>
        ensures reads_the_form { result ≡ value_of bytes.now }
        ensures reads_exactly_what_is_written { ReadsExactly value_of IsWriting bytes.now };
}

/// A number of 1 to 12 digits without a leading zero.
impl Form for u64 {
    ghost value_of = { number_of };

    ghost IsWriting = { Number };

    #[tactic(auto, using(crate::proofs::Reading::reads_numbers), unfolding(crate::specs::Numbers::number_of))]
    fn read(bytes: &[u8]) -> Option<u64>
        ensures reads_the_form { result ≡ number_of bytes.now }
        ensures reads_exactly_what_is_written { ReadsExactly number_of Number bytes.now }
        ensures stays_below { IfSome result (λ n. n < 10 ^ 12) }
    {
        if bytes.len() > MOST_DIGITS || matches!(bytes, [] | [b'0', _, ..]) {
            return None;
        }
        // Not the library's `parse`, which takes a plus and leading zeros; nor a fold, whose closure does not see that the digits so far
        // keep the value small.
        let mut value = 0;
        for byte in bytes {
            if !byte.is_ascii_digit() {
                return None;
            }
            value = value * 10 + u64::from(*byte - b'0');
        }
        Some(value)
    }
}

/// A number with a minus in front where it is below 0; `-0` is no price.
impl Form for i64 {
    ghost value_of = { price_of };

    ghost IsWriting = { Price };

    fn read(bytes: &[u8]) -> Option<i64> {
        match bytes {
            [b'-', digits @ ..] => match u64::read(digits)? {
                0 => None,
                n => Some(-(n as i64)),
            },
            _ => u64::read(bytes).map(|n| n as i64),
        }
    }
}

/// A last day, which is missing where a hyphen stands for it: `Some(None)`. `None` says that neither stands there.
impl Form for Option<u64> {
    ghost value_of = { last_day_of };

    ghost IsWriting = { LastDay };

    #[tactic(auto, using(crate::proofs::Reading::reads_last_days), unfolding(crate::specs::Numbers::last_day_of))]
    fn read(bytes: &[u8]) -> Option<Option<u64>> {
        match bytes {
            [b'-'] => Some(None),
            _ => u64::read(bytes).map(Some),
        }
    }
}

/// The letter of a field that has one byte.
impl Form for u8 {
    ghost value_of = { letter_of };

    ghost IsWriting = { Letter };

    #[tactic(auto, using(crate::proofs::Reading::reads_letters), unfolding(crate::specs::Numbers::letter_of))]
    fn read(bytes: &[u8]) -> Option<u8> {
        match bytes {
            [only] => Some(*only),
            _ => None,
        }
    }
}
