//! A stream of bytes in lines: each ends at a line feed, which is not part of it.

use reserved::Reserved;

mod lines;

pub use lines::first_line;

/// How many bytes of a line are kept: as many as a line may have, and one more that tells a line that is too long.
const KEPT_BYTES: usize = 81;

// A type of its own over `Reserved`, since it keeps the beginning of what it is given and never refuses.
/// The beginning of a line of which only a part has come. At most 81 bytes of it are kept, however long it is.
#[derive(Drop)]
pub struct LineStart {
    bytes: Reserved<u8, KEPT_BYTES>,
}
