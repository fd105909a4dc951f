//! Why an act would be refused, room in the history apart.
ghost use Rattle.std.specs.Prelude.{◌≡◌};
ghost use Rattle.pd_settings.specs.Keys.{key_named};
ghost use Rattle.pd_book.specs.Acts.{present_text, now};
ghost use Rattle.pd_book.specs.Refusals.{refusal_if_name_bad_taken_or_too_many, line_edit_refusal, missing_refusal, refusal_if_key_unknown_or_value_bad};

use crate::book::{Book, MAX_SCRIPTS};
use crate::faults::BookFault;
use pd_settings::{Key, Value};
use pd_text::{LineEdit, Name};

impl Book {
    /// Why no script of this name is added: `BadName`, `NameTaken` or `TooManyScripts`, the first that applies.
    pub fn refusal_if_name_bad_taken_or_too_many(&self, name: &Name) -> Option<BookFault>
        ensures { result ≡ refusal_if_name_bad_taken_or_too_many self.now.history.past name.now }
    {
        if !name.is_valid() {
            return Some(BookFault::BadName);
        }
        if self.has_script(name) {
            return Some(BookFault::NameTaken);
        }
        if self.script_count() >= MAX_SCRIPTS {
            return Some(BookFault::TooManyScripts);
        }
        None
    }

    /// Why a script isn't edited so: `NoSuchScript`, `BadRange` or `TooLarge`, the first that applies.
    pub fn line_edit_refusal(&self, name: &Name, edit: &LineEdit) -> Option<BookFault>
        ensures { result ≡ line_edit_refusal (present_text self.now.history.past name.now) edit.now }
    {
        match self.edited_lines_or_none_if_out_of_memory(name, edit) {
            Ok(_) => None,
            Err(fault) => Some(fault),
        }
    }

    /// Why no script of this name is removed: `NoSuchScript`.
    pub fn missing_refusal(&self, name: &Name) -> Option<BookFault>
        ensures { result ≡ missing_refusal self.now.history.past name.now }
    {
        if self.has_script(name) {
            None
        } else {
            Some(BookFault::NoSuchScript)
        }
    }

    /// Why a setting isn't set to this value: `UnknownKey` or `BadValue`, the first that applies.
    pub fn refusal_if_key_unknown_or_value_bad(&self, key: &[u8], value: Value) -> Option<BookFault>
        ensures { result ≡ refusal_if_key_unknown_or_value_bad (now self.now.history.opening self.now.history.past) (key_named key.now) value }
    {
        let Some(key) = Key::from_name(key) else {
            return Some(BookFault::UnknownKey);
        };
        if self
            .settings
            .with_allowed_value_or_none(key, value)
            .is_none()
        {
            return Some(BookFault::BadValue);
        }
        None
    }
}
