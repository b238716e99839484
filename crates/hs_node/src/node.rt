//! A node.

ghost use Rattle.std.specs.Prelude.{◌≡◌, length};

use hs_base::List;
use hs_intake::Intake;
use hs_link::Receiver;
use hs_node_client::{SegmentKey, SegmentNote};
use hs_whole::SegmentNotes;
use std::marker::Model;

/// The agent of a node with all that it takes, says and claims, and what the node heard of its clients' segments.
#[derive(Drop)]
pub struct Node {
    pub(crate) intake: Intake,
    pub(crate) notes: SegmentNotes,
    /// The ends that receive the notes of the clients.
    pub(crate) segments: List<Receiver<SegmentNote, SegmentKey>>,
    pub(crate) clients: u16,
    /// So many claims are kept before settled groups are forgotten.
    pub(crate) limit: u32,
    /// How many triggers left unseen, since no number or no place was left for them. It stays at the greatest number once it is there.
    pub(crate) limited: u64,
}

impl Model for Node {
    ghost use Rattle.hs_node.specs.Nodes.{PlainNode};
    ghost use Rattle.hs_node.specs.NodeLayout.{node_in, IsNode};

    ghost Value = { PlainNode };

    ghost view = { node_in };

    ghost invariant = { IsNode };
}

impl Node {
    /// A node with these parts, which has an end for the notes of each client.
    pub(crate) fn of(
        intake: Intake,
        notes: SegmentNotes,
        segments: List<Receiver<SegmentNote, SegmentKey>>,
        clients: u16,
        limit: u32,
    ) -> Node
        requires { length segments.items ≡ clients }
        ensures { result ≡ record { intake = intake; notes = notes; segments = segments.items; clients = clients; limit = limit; limited = 0 } }
    {
        Node {
            intake,
            notes,
            segments,
            clients,
            limit,
            limited: 0,
        }
    }
}
