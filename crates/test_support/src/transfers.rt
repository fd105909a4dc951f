//! The things that a transcript has here, and those that it has elsewhere.
use crate::output::{AnswerText, NO_SUCH_THING};

/// Moves so many of the last items, the last first, and says `ok`, or that there are fewer.
pub fn move_last_items<T: Drop>(
    from: &mut Vec<T>,
    to: &mut Vec<T>,
    count: u64,
    output: &mut AnswerText,
) {
    for _item in 0..count {
        match from.pop() {
            Some(item) => output.is_whole &= to.push(item).is_ok(),
            None => return output.push_str(NO_SUCH_THING),
        }
    }
    output.push_str("ok");
}
