//! The result of reading again.
use crate::reading::Reading;

/// A text that was read again.
#[derive(Drop)]
pub struct Reread {
    /// The reading of the whole text.
    pub reading: Reading,
    /// How many events were kept of the earlier reading.
    pub kept: usize,
}
