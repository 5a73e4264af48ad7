//! Why a book is not opened.

ghost use Rattle.std.specs.Prelude.{◌≡◌};
ghost use Rattle.book.specs.Opening.{refused, out_of_memory};

use records::Fault;
use std::alloc::AllocError;

/// Why a book is not opened: its terms are refused, or there is no memory for its tables.
#[derive(Clone, Copy)]
pub enum OpenFault {
    Refused(Fault),
    OutOfMemory,
}

impl From<Fault> for OpenFault {
    ghost from_gives = { λ fault r. r ≡ refused fault };

    fn from(fault: Fault) -> OpenFault {
        OpenFault::Refused(fault)
    }
}

impl From<AllocError> for OpenFault {
    ghost from_gives = { λ _ r. r ≡ out_of_memory };

    fn from(_error: AllocError) -> OpenFault {
        OpenFault::OutOfMemory
    }
}
