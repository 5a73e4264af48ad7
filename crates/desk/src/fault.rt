//! Why a line is refused.

ghost use Rattle.std.specs.Prelude.{◌≡◌};
ghost use Rattle.desk.specs.Faults.{refusal, of_book, of_open};

use book::OpenFault;
use records::{Fault, Layer, Refusal};

/// Why a line is refused. A fault of the book is carried whole.
#[derive(Clone, Copy)]
pub enum LineFault {
    BufferTooShort,
    LineTooLong,
    /// An unknown command or market letter, or no letter by itself where one is due.
    UnknownLetter { place: u8 },
    WrongFieldCount,
    /// A field that is not a number in the form.
    NotANumber { place: u8 },
    /// A line before the book is opened.
    NotOpen,
    /// The book is opened again.
    AlreadyOpen,
    Book(Fault),
    /// No memory for the tables of a book. No rule refuses this line, so it has no number.
    OutOfMemory,
}

// The length goes back beside the fault, since the buffer is the caller's.
/// A refused line: why, and how many bytes of the refusal line were written.
#[derive(Clone, Copy)]
pub struct Refused {
    pub fault: LineFault,
    pub length: usize,
}

impl From<Fault> for LineFault {
    ghost from_gives = { λ fault r. r ≡ of_book fault };

    fn from(fault: Fault) -> LineFault {
        LineFault::Book(fault)
    }
}

impl From<OpenFault> for LineFault {
    ghost from_gives = { λ fault r. r ≡ of_open fault };

    fn from(fault: OpenFault) -> LineFault {
        match fault {
            OpenFault::Refused(fault) => LineFault::Book(fault),
            OpenFault::OutOfMemory => LineFault::OutOfMemory,
        }
    }
}

impl LineFault {
    // No `TryFrom`: a fault without a number is not an error.
    /// The number, the layer and the place with which it is answered.
    pub fn refusal(self) -> Option<Refusal>
        ensures as_the_table_has_it { result ≡ refusal self }
    {
        let (number, layer, place) = match self {
            LineFault::BufferTooShort => (100, Layer::Line, None),
            LineFault::LineTooLong => (101, Layer::Line, None),
            LineFault::UnknownLetter { place } => (102, Layer::Field, Some(place)),
            LineFault::WrongFieldCount => (103, Layer::Field, None),
            LineFault::NotANumber { place } => (104, Layer::Field, Some(place)),
            LineFault::NotOpen | LineFault::AlreadyOpen => (201, Layer::Line, None),
            LineFault::Book(fault) => return Some(Refusal::from(fault)),
            LineFault::OutOfMemory => return None,
        };
        Some(Refusal {
            number,
            layer,
            place,
        })
    }
}
