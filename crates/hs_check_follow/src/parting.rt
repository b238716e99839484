//! What following a journal found, and what its clients and agents leave.

ghost use Rattle.std.specs.Prelude.{◌≡◌, ◌++◌, ◌∷◌, [], true, map, IfOk, OnOk};
ghost use Rattle.std.specs.List.{flat_map};
ghost use Rattle.hs_check_follow.specs.Finding.{AreFound, IsFound};
ghost use Rattle.hs_records.specs.Journals.{PlainJournal};
ghost use Rattle.hs_law_journal.specs.Following.{followed, is_done};
ghost use Rattle.hs_records.specs.Plain.{PlainWorkload};
ghost use Rattle.hs_check_follow.specs.Parting.{books_left, HasClientsBehind, IsFoundOf};
ghost use Rattle.hs_check_follow.specs.Whole.{AllAt};

use crate::agent::FollowedAgent;
use crate::client::FollowedClient;
use crate::found::{Found, FoundClient, FoundNode};
use crate::node::FollowedNode;
use crate::run::FollowedRun;
use hs_agent::Agent;
use hs_base::{List, Memory};
use hs_law_journal::laws::runs_are_of_the_journal;
use hs_records::ClientBook;
use std::alloc::Global;

/// What the clients noted, in the order of their numbers, and the agents.
#[derive(Drop)]
pub struct FollowedParts {
    pub clients: List<ClientBook>,
    pub agents: List<Agent<()>>,
}

impl FollowedRun {
    /// What was found where the whole journal was followed, and what is left.
    pub fn part(self, alloc: Global) -> Result<(Found, FollowedParts), Memory>
        ensures found { (W : PlainWorkload) (J : PlainJournal) → AllAt W J (followed W J) self.nodes.items self.hearing → is_done (followed W J) ≡ true
            → IfOk result (λ parts. IsFound W.settings (followed W J) parts.0) }
        ensures clients { IfOk result (λ parts. parts.1.clients.items ≡ flat_map books_left self.nodes.items) }
        ensures agents { IfOk result (λ parts. parts.1.agents.items ≡ map (λ t. t.follower.agent) self.nodes.items) }
    {
        runs_are_of_the_journal();
        let FollowedRun { nodes, hearing } = self;
        let mut ended = FollowedParts {
            clients: List::new(alloc),
            agents: List::new(alloc),
        };
        let found = part_nodes(alloc, nodes, &mut ended)?;
        let asked = hearing.asked;
        Ok((
            Found {
                nodes: found,
                asked,
            },
            ended,
        ))
    }
}

/// What was found at nodes.
fn part_nodes(
    alloc: Global,
    nodes: List<FollowedNode>,
    ended: &mut FollowedParts,
) -> Result<List<FoundNode>, Memory>
    ensures found { IfOk result (λ found. AreFound IsFoundOf nodes.items found.items) }
    ensures clients { IfOk result (λ found. ended.new.clients.items ≡ ended.old.clients.items ++ flat_map books_left nodes.items) }
    ensures agents { IfOk result (λ found. ended.new.agents.items ≡ ended.old.agents.items ++ map (λ t. t.follower.agent) nodes.items) }
{
    let mut found = List::new(alloc);
    for tracked in nodes.into_vec() {
        found.append(part_node(alloc, tracked, ended)?)?;
    }
    Ok(found)
}

/// What was found at a node.
fn part_node(
    alloc: Global,
    tracked: FollowedNode,
    ended: &mut FollowedParts,
) -> Result<FoundNode, Memory>
    ensures found { IfOk result (IsFoundOf tracked) }
    ensures clients { IfOk result (λ found. ended.new.clients.items ≡ ended.old.clients.items ++ books_left tracked) }
    ensures agents { IfOk result (λ found. ended.new.agents.items ≡ ended.old.agents.items ++ tracked.follower.agent ∷ []) }
{
    let FollowedNode {
        follower,
        next: _,
        hands,
        told,
    } = tracked;
    let FollowedAgent {
        agent,
        clients,
        said,
        asked: _,
        gives,
    } = follower;
    let found = FoundNode {
        clients: List::new(alloc),
        gives,
        hands,
        said: told,
        told: said.len(),
        pinned: agent.pinned() as usize,
    };
    part_agent(found, agent, clients, ended)
}

/// What was found at a node, with its clients. Its agent goes behind the others.
fn part_agent(
    found: FoundNode,
    agent: Agent<()>,
    clients: List<FollowedClient>,
    ended: &mut FollowedParts,
) -> Result<FoundNode, Memory>
    ensures found { IfOk result (λ all. HasClientsBehind (map (λ s. s.found) clients.items) found all) }
    ensures clients { IfOk result (λ all. ended.new.clients.items ≡ ended.old.clients.items ++ map (λ s. s.book) clients.items) }
    ensures agents { IfOk result (λ all. ended.new.agents.items ≡ ended.old.agents.items ++ agent ∷ []) }
{
    let mut found = found;
    let agents = ended.agents.append(agent);
    let clients = part_clients(clients, &mut found.clients, &mut ended.clients);
    agents?;
    clients?;
    Ok(found)
}

/// What was found at clients, and their books, go behind the others.
fn part_clients(
    clients: List<FollowedClient>,
    found: &mut List<FoundClient>,
    books: &mut List<ClientBook>,
) -> Result<(), Memory>
    ensures found { OnOk result (found.new.items ≡ found.old.items ++ map (λ s. s.found) clients.items) }
    ensures books { OnOk result (books.new.items ≡ books.old.items ++ map (λ s. s.book) clients.items) }
{
    for client in clients.into_vec() {
        part_client(client, found, books)?;
    }
    Ok(())
}

/// What was found at a client, and its book, go behind the others.
fn part_client(
    client: FollowedClient,
    found: &mut List<FoundClient>,
    books: &mut List<ClientBook>,
) -> Result<(), Memory>
    ensures found { OnOk result (found.new.items ≡ found.old.items ++ client.found ∷ []) }
    ensures books { OnOk result (books.new.items ≡ books.old.items ++ client.book ∷ []) }
{
    let FollowedClient {
        chunks: _,
        crumbs: _,
        triggers: _,
        found: one,
        book,
    } = client;
    let noted = books.append(book);
    found.append(one)?;
    noted
}
