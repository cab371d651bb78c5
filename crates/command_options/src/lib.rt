//! What a command is made of, as data: the commands with their files and options, the option table, and the settings of a
//! request.
//!
//! Commands and options that the program doesn't have yet stand here too, and `shape` says which.
#![tactic(auto)]

mod form;
mod names;
mod option_name;
mod role;
mod setting_name;
mod settings;
mod shape;
mod value;
mod values;
mod verb;

pub use form::{Form, Range, form_of};
pub use names::{Named, find_named, kind_text};
pub use option_name::{OPTIONS, OptionName, long_of, name_of};
pub use role::{Role, role_text};
pub use setting_name::SettingName;
pub use settings::Settings;
pub use shape::{has_option, has_option_of_any, is_built};
pub use value::{Value, default_of, number_of};
pub use values::{Values, kind_in_value, settings_of};
pub use verb::{VERBS, Verb, read_verb, roles_of, verb_text};
