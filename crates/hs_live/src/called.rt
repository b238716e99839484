//! What the calls of a client answer.

use crate::key::ClientKey;
use hs_base::{Crumb, Trigger};
use hs_link::Sender;
use hs_records::ClientBook;
use hs_ring::{Drawer, Lease};
use hs_words::Held;

/// What a call of a client answers: that it was done, or why it changed nothing.
#[derive(Clone, Copy)]
pub enum Called {
    /// The call did what it says.
    Done,
    /// As many calls of the core were counted as it was made for.
    Spent,
    /// A trace is open already.
    AlreadyOpen,
    /// No trace is open.
    NoTrace,
    /// The payload is longer than a record may have.
    TooWide,
}

/// What a client has left: calls that its core may count, draws, and items that each link takes whatever the agent does.
#[derive(Clone, Copy)]
pub struct ClientLeft {
    pub calls: u32,
    pub draws: u32,
    pub chunks: u32,
    pub crumbs: u32,
    pub triggers: u32,
}

/// What a client gives back: what it noted, and its ends.
#[derive(Drop)]
pub struct Closed {
    pub book: ClientBook,
    pub drawer: Drawer,
    pub chunks: Sender<Held<Lease>, ClientKey>,
    pub crumbs: Sender<Crumb, ClientKey>,
    pub triggers: Sender<Trigger, ClientKey>,
}

/// The ends that a client gives back.
#[derive(Drop)]
pub struct Parted {
    pub drawer: Drawer,
    pub chunks: Sender<Held<Lease>, ClientKey>,
    pub crumbs: Sender<Crumb, ClientKey>,
    pub triggers: Sender<Trigger, ClientKey>,
}
