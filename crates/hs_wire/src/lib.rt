//! The bytes of the messages that nodes and the coordinator of a service send each other (`docs/FORMATS.md`, "Messages of a
//! service").
#![tactic(auto)]

mod laws;
mod message;
mod reading;
mod writing;

pub use laws::spells_once;
pub use message::{
    Body, Head, Hello, Losses, MOST_NAME, MOST_PAGE, Message, Reported, Standing, VERSION,
    Wholeness, WriteFault,
};
pub use reading::read;
pub use writing::write;
