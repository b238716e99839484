//! The settings of a service, read from a text: its grammar, its defaults, and the reader that names the first bad line and its
//! first reason (`docs/FORMATS.md`, "Settings of a service").
#![tactic(auto)]

mod draft;
pub mod limits;
mod numbers;
mod reader;
mod refusal;
mod rules;
mod setting;
mod settings;
mod word;

pub use reader::read_settings;
pub use refusal::{SettingsFault, SettingsReason, SettingsRefusal};
pub use settings::ServiceSettings;
