//! Sentences from pieces.
use itoa::Buffer;
use pd_print::render_seconds_with_six_decimals;
use std::alloc::AllocError;

/// A piece of a sentence.
#[derive(Clone, Copy)]
pub enum Phrase {
    Words(&'static str),
    Number(u64),
    /// Microseconds, which are shown as seconds.
    Moment(u64),
}

/// Adds pieces one after the other.
///
/// # Errors
/// `AllocError` where a growth is refused.
pub fn put_concatenated_phrases(out: &mut Vec<u8>, pieces: &[Phrase]) -> Result<(), AllocError> {
    let mut buffer = Buffer::new();
    for piece in pieces {
        match piece {
            Phrase::Words(text) => out.extend_from_slice(text.as_bytes())?,
            Phrase::Number(number) => out.extend_from_slice(buffer.format(*number).as_bytes())?,
            Phrase::Moment(moment) => {
                out.extend_from_slice(&render_seconds_with_six_decimals(
                    *out.allocator(),
                    *moment,
                )?)?;
            }
        }
    }
    Ok(())
}
