//! What stands behind the handles.

ghost use Rattle.std.specs.Prelude.{◌≡◌, length};
ghost use Rattle.hs_c.specs.Ports.{IsOfPool, KeepsPort};

use hs_base::{Crumb, List};
use hs_cursor::Cursor;
use hs_hub::Hub;
use hs_link::Receiver;
use hs_live::{AgentPort, ClientKey};
use hs_node::Node;
use hs_node_client::{NodeClient, SegmentKey, SegmentNote};
use hs_ring::Lease;
use hs_words::{Given, Held};
use std::alloc::Global;

/// A client.
#[derive(Drop)]
pub struct ClientCell {
    pub client: NodeClient,
}

/// The port of a node, the clients that were not handed out, how many there are in all, and the other ends of what they note.
#[derive(Drop)]
pub struct PortCell {
    pub port: AgentPort,
    pub left: List<Box<ClientCell, Global>>,
    pub late: List<Receiver<Crumb, ClientKey>>,
    pub notes: List<Receiver<SegmentNote, SegmentKey>>,
    pub clients: u16,
    pub ghost few: { clients ≡ length port.chunks },
}

/// A node, with the clients that were not handed out.
#[derive(Drop)]
pub struct NodeCell {
    pub node: Node,
    pub left: List<Box<ClientCell, Global>>,
}

/// A hub, with the cursor that goes over the rows of the trace that is out.
#[derive(Drop)]
pub struct HubCell {
    pub hub: Hub,
    pub cursor: Cursor,
}

/// What became of a call that takes a chunk of a client.
pub enum TakenChunk {
    /// A chunk, whose buffer was given back.
    Chunk,
    /// A chunk, whose buffer the pool did not take in so many tries. It is gone.
    Lost,
    /// No chunk has come.
    Nothing,
    /// There is no such client.
    Unknown,
}

/// How often a give is tried. It misses once for each draw that found the pool empty.
const TRIES: u32 = 1_000_000;

/// Gives a chunk back. The answer is whether the pool took it.
fn give_back(port: &mut AgentPort, held: Held<Lease>) -> bool
    requires { IsOfPool port.old held }
    ensures { KeepsPort port.old port.new }
{
    let mut held = held;
    for _ in 0..TRIES {
        held = match port.give(held) {
            Given::Given { stamp: _ } => return true,
            Given::Missed { held, stamp: _ } => held,
            Given::Unread { held } => held,
        };
    }
    false
}

impl PortCell {
    /// Takes the next chunk of a client, and gives its buffer back.
    pub fn take(&mut self, client: u16) -> TakenChunk {
        if client >= self.clients {
            return TakenChunk::Unknown;
        }
        let Some(held) = self.port.chunk(client) else {
            return TakenChunk::Nothing;
        };
        if give_back(&mut self.port, held) {
            TakenChunk::Chunk
        } else {
            TakenChunk::Lost
        }
    }

    /// Takes what a client noted, as far as it came: its segments, and its crumbs of traces that need not be open.
    pub fn take_notes(&mut self, client: u16) {
        let at = client as usize;
        if let Some(link) = self.notes.as_mut_slice().get_mut(at) {
            let _ = link.receive();
        }
        if let Some(link) = self.late.as_mut_slice().get_mut(at) {
            let _ = link.receive();
        }
    }
}
