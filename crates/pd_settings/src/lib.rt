//! The settings of a run: a value for each key, in its range, and how a key and a value change one of them.
//!
//! A `Settings` has a field for each setting. A `Key` names one, a `AllowedValues` says what it takes, and
//! a `Value` is what somebody wrote for it. `Settings::with` changes one setting by its name, and
//! `Settings::from_table` lays a TOML table over the defaults. A `SettingSet` says which settings were
//! consulted; `Settings::agrees` compares two settings at these keys alone.
//!
//! Each number is always in the range of its setting: `Allows` (specs/Keys.antt), a ghost field for
//! each. The table of settings stands in specs/Rows.antt, and the documents and the client get
//! theirs from there.
//!
//! Why it is so:
//! - A change of a setting concerns a run only if the run has consulted that setting. So the sender
//!   notes in a `SettingSet` what it consults, and the state of a run serves under all settings that
//!   agree there: `Agree` (specs/SettingSets.antt).
//! - Settings are compared key by key, so that a new setting is named only where it is held, set,
//!   read and noted.
//! - A value of a kind that no setting takes is read as `Value::Other` and refused by its key, so
//!   that an unknown key is refused before its value.
#![tactic(auto)]

mod allowed_values;
mod equality;
mod faults;
mod initial_window;
mod keys;
mod recovery_algorithm;
mod setting_set;
mod settings;
mod values;

pub use allowed_values::AllowedValues;
pub use faults::SettingsFault;
pub use initial_window::InitialWindow;
pub use keys::Key;
pub use recovery_algorithm::RecoveryAlgorithm;
pub use setting_set::SettingSet;
pub use settings::Settings;
pub use values::Value;
