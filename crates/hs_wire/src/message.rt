//! The messages.

use hs_base::limits::{MAX_SIZE, UNCOUNTED_BYTES};
use hs_base::{Ask, Group, GroupId, NodeId, NodeSet, Told, TraceId};
use thiserror::Error;

/// How messages are spelled: by which version of the tables of `docs/FORMATS.md`.
pub const VERSION: u8 = 1;

/// The longest name of a node, in bytes.
pub const MOST_NAME: u8 = 64;

/// The most bytes of a reported page: those of a page of the greatest size.
pub const MOST_PAGE: u16 = 32_776;

const _: () = prove!(MOST_PAGE as usize == MAX_SIZE as usize + UNCOUNTED_BYTES);

/// How a message begins: a life of the sender, which of its messages this is, and the node that speaks. Of an ask it is the
/// node that is asked.
#[derive(Clone, Copy, Debug, PartialEq, Eq)]
pub struct Head {
    pub epoch: u64,
    pub number: u64,
    pub node: NodeId,
}

/// A node says who it is: a digest of the settings that all nodes share, and its name, of any bytes.
#[derive(Clone, Copy)]
pub struct Hello<'a> {
    pub digest: [u8; 32],
    pub name: &'a [u8],
}

/// A page that a node reports for a group. Its client wrote it, and the client's core has this number.
#[derive(Clone, Copy)]
pub struct Reported<'a> {
    pub group: Group,
    pub client: u16,
    pub core: u64,
    pub page: &'a [u8],
}

/// How much of a trace was lost, by cause.
#[derive(Clone, Copy, Debug, PartialEq, Eq)]
pub struct Losses {
    /// Pages that were written to no buffer, since the pool was empty.
    pub null_pages: u64,
    /// Points refused since the outbox was full.
    pub full_points: u64,
    /// Points refused since no buffer was to be had.
    pub dry_points: u64,
    /// Points refused since they were too long.
    pub long_points: u64,
    /// Crumbs that a client could not send.
    pub refused_crumbs: u64,
    /// Crumbs that went when the index let the trace go.
    pub evicted_crumbs: u64,
    /// Crumbs that went when the group was forgotten.
    pub forgotten_crumbs: u64,
    /// Pages that the index let go.
    pub evicted_pages: u64,
    /// Pages that went when the group was abandoned.
    pub abandoned_pages: u64,
}

/// How whole a node's part of a trace is, as far as the node knows.
#[derive(Clone, Copy, Debug, PartialEq, Eq)]
pub enum Wholeness {
    /// All that was written in the segments heard since the horizon was handed out.
    WholeSince,
    /// Something was lost.
    Lost,
    /// No segment of the trace was heard since the horizon.
    UnheardSince,
    /// The node cannot say.
    Unknown,
    /// A segment of the trace is open.
    Open,
}

/// How a node stands to a trace that a group claims.
#[derive(Clone, Copy, Debug, PartialEq, Eq)]
pub struct Standing {
    pub trace: TraceId,
    pub group: GroupId,
    pub wholeness: Wholeness,
    /// How many segments of the trace are open.
    pub open_segments: u32,
    /// The count of segments since which the node missed none.
    pub horizon: u64,
    /// How many pages of the trace the node handed out in this life. A hub that has fewer waits for the others.
    pub pages: u64,
    /// The nodes to which crumbs of the trace led, as far as the node heard.
    pub crumbs: NodeSet,
    pub losses: Losses,
}

/// What a message says, by its kind.
#[derive(Clone, Copy)]
pub enum Body<'a> {
    Hello(Hello<'a>),
    Told(Told),
    Ask(Ask),
    Reported(Reported<'a>),
    Standing(Standing),
}

#[derive(Clone, Copy)]
pub struct Message<'a> {
    pub head: Head,
    pub body: Body<'a>,
}

/// Why a message was not written.
#[derive(Clone, Copy, Debug, PartialEq, Eq, Error)]
pub enum WriteFault {
    /// It has no spelling: a node is not below 128, or a name or a page is too long.
    #[error("the message has no spelling")]
    NoSpelling,
    /// The slice is shorter than the message, which takes so many bytes.
    #[error("the message takes {0} bytes")]
    Short(usize),
}
