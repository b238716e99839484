//! How a node is made, with its clients.

ghost use Rattle.std.specs.Prelude.{◌≡◌, ◌+◌, length, IfOk, IfErr};
ghost use Rattle.hs_records.specs.Plain.{settings_of};
ghost use Rattle.hs_settings.specs.Settings.{service_of, IsServiceSettings};
ghost use Rattle.hs_mail.specs.Letters.{no_letters};
ghost use Rattle.hs_node.specs.Made.{limits_of, run_settings, IsMade, IsMadeBy, HasCause, IsCauseBy};

use crate::node::Node;
use hs_base::{List, Memory, NodeId, Settings};
use hs_intake::{MadeIntake, make_intake};
use hs_mail::{Mail, Room};
use hs_node_client::{ClientLimits, MakeFault, NodeClient};
use hs_settings::{ServiceSettings, SettingsFault, read_settings};
use hs_whole::{NoteLimits, SegmentNotes};
use std::alloc::Global;

/// How many words may wait for their acknowledgement, and how many bytes each may have: those of the longest that is told.
pub const WORDS: u32 = 1024;

pub const WORD_BYTES: u32 = 573;

/// What a reported page has besides the bytes of its chunk's size.
pub const PAGE_MORE: u32 = 63;

/// How many asks may wait.
pub const ASKS: u32 = 64;

/// How many claims there is room for above the limit: those of 64 groups.
pub const CLAIMS_MORE: u32 = 2112;

/// How many calls a client's core counts before it is renewed.
pub const CALLS: u32 = 262_144;

/// A node and its clients, by number.
#[derive(Drop)]
pub struct MadeNode {
    pub node: Node,
    pub clients: List<NodeClient>,
}

/// Why no node was made.
#[derive(Clone, Copy, Debug, PartialEq, Eq)]
pub enum NodeFault {
    /// The text is no settings of a service.
    Settings(SettingsFault),
    /// Its clients cannot be made by these settings, or there was no memory for them.
    Clients(MakeFault),
    /// There was no memory.
    Memory,
}

/// What the clients are made with.
fn limits_of(settings: &ServiceSettings, node: u16) -> ClientLimits
    ensures { result ≡ limits_of (service_of settings.now) node }
{
    ClientLimits {
        node,
        clients: settings.clients,
        buffers: settings.buffers,
        size: settings.size,
        backlog: settings.backlog,
        notes: settings.backlog,
        calls: CALLS,
    }
}

/// The mail of a node, with a place for the page of each chunk that may be pinned.
fn mail_of(alloc: Global, settings: &ServiceSettings, node: u16, epoch: u64) -> Result<Mail, Memory>
    requires { IsServiceSettings (service_of settings.now) }
    ensures { IfOk result (λ mail. mail ≡ no_letters (record { 0 = node }) epoch (record { places = settings.now.pins; bytes = settings.now.size + PAGE_MORE }) (record { places = WORDS; bytes = WORD_BYTES })) }
{
    let pages = Room {
        places: settings.pins,
        bytes: settings.size + PAGE_MORE,
    };
    let words = Room {
        places: WORDS,
        bytes: WORD_BYTES,
    };
    Mail::make(alloc, NodeId(node), epoch, pages, words)
}

/// The settings by which an agent goes.
fn run_settings(settings: ServiceSettings) -> Settings
    ensures { settings_of result ≡ run_settings (service_of settings) }
{
    Settings {
        nodes: settings.nodes,
        clients: settings.clients,
        buffers: settings.buffers,
        size: settings.size,
        threshold: settings.threshold,
        traces: settings.traces,
        pins: settings.pins,
        stride: 1,
        triggers: settings.triggers,
        autos: settings.autos,
    }
}

/// A node by settings that were read.
fn make_by(
    alloc: Global,
    settings: ServiceSettings,
    node: u16,
    epoch: u64,
) -> Result<MadeNode, NodeFault>
    requires { IsServiceSettings (service_of settings) }
    ensures made { IfOk result (IsMadeBy (service_of settings) node epoch) }
    ensures fault { IfErr result (IsCauseBy (service_of settings) node) }
{
    let limits = limits_of(&settings, node);
    let claims = settings.claims;
    let noted = NoteLimits {
        clients: settings.clients,
        traces: settings.remember,
    };
    let Ok(mail) = mail_of(alloc, &settings, node, epoch) else {
        return Err(NodeFault::Memory);
    };
    let Ok(notes) = SegmentNotes::make(alloc, noted) else {
        return Err(NodeFault::Memory);
    };
    let plain = run_settings(settings);
    match make_intake(alloc, &plain, &limits, mail, ASKS, claims + CLAIMS_MORE) {
        Ok(made) => Ok(join(made, notes, limits.clients, claims)),
        Err(fault) => Err(NodeFault::Clients(fault)),
    }
}

/// A node with an intake that was made.
fn join(made: MadeIntake, notes: SegmentNotes, clients: u16, limit: u32) -> MadeNode
    requires { length made.segments.items ≡ clients }
    ensures { result ≡ record { node = record { intake = made.intake; notes = notes; segments = made.segments.items; clients = clients; limit = limit; limited = 0 }; clients = made.clients } }
{
    let MadeIntake {
        intake,
        segments,
        clients: made,
    } = made;
    MadeNode {
        node: Node::of(intake, notes, segments, clients, limit),
        clients: made,
    }
}

/// A node of a service, with its clients, by the text of the service's settings, the node's number and an epoch, which no earlier life
/// of this node had. It takes all memory that has a fixed size.
pub fn make_node(alloc: Global, text: &[u8], node: u16, epoch: u64) -> Result<MadeNode, NodeFault>
    ensures made { IfOk result (IsMade text.now node epoch) }
    ensures fault { IfErr result (HasCause text.now node) }
{
    match read_settings(alloc, text) {
        Ok(settings) => make_by(alloc, settings, node, epoch),
        Err(fault) => Err(NodeFault::Settings(fault)),
    }
}
