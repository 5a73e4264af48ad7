//! Why the book refuses a call, and how a refusal is numbered.

ghost use Rattle.std.specs.Prelude.{◌≡◌};
ghost use Rattle.records.specs.Refusals.{refusal, of_list};

use market::ListFault;

/// Who refuses: the line as a whole, one of its fields, or the book.
#[derive(Clone, Copy)]
pub enum Layer {
    Line,
    Field,
    Book,
}

/// A refusal as it is answered: its number, its layer, and the place of the field at fault, if one is (the command's
/// letter is at place 1).
#[derive(Clone, Copy)]
pub struct Refusal {
    pub number: u16,
    pub layer: Layer,
    pub place: Option<u8>,
}

/// Why the book refuses a call. A fault of an argument has the place of its field.
#[derive(Clone, Copy)]
pub enum Fault {
    /// A participant's or a guarantee's number that is out of range.
    NumberOutOfRange { place: u8 },
    /// A reference price that is out of range.
    PriceOutOfRange { place: u8 },
    /// A VAT or a margin above 99 percent, or a share above 1,000 thousandths.
    RateOutOfRange { place: u8 },
    /// An amount that is out of range.
    AmountOutOfRange { place: u8 },
    /// A day after the last one; or, with no place, a calendar list that is too long, does not rise or goes beyond the last
    /// day.
    DayOutOfRange { place: Option<u8> },
    UnknownParticipant,
    AlreadyAdmitted,
    UnknownGuarantee,
    /// A number that is not above the last one used.
    NumberUsed,
    /// A last day before today.
    DayPast,
    TableFull,
}

/// A calendar list that is refused: no field of a line is at fault.
impl From<ListFault> for Fault {
    ghost from_gives = { λ list r. r ≡ of_list list };

    fn from(_list: ListFault) -> Fault {
        Fault::DayOutOfRange { place: None }
    }
}

/// The number, the layer and the place with which a fault is answered.
impl From<Fault> for Refusal {
    ghost from_gives = { λ fault r. r ≡ refusal fault };

    fn from(fault: Fault) -> Refusal {
        let (number, place) = match fault {
            Fault::NumberOutOfRange { place } => (105, Some(place)),
            Fault::PriceOutOfRange { place } => (107, Some(place)),
            Fault::RateOutOfRange { place } => (108, Some(place)),
            Fault::AmountOutOfRange { place } => (109, Some(place)),
            Fault::DayOutOfRange { place } => (110, place),
            Fault::UnknownParticipant => (211, None),
            Fault::AlreadyAdmitted => (212, None),
            Fault::UnknownGuarantee => (213, None),
            Fault::NumberUsed => (214, None),
            Fault::DayPast => (215, None),
            Fault::TableFull => (216, None),
        };
        Refusal {
            number,
            layer: Layer::Book,
            place,
        }
    }
}
