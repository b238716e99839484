//! The clients of all nodes are taken apart, and their links closed.

ghost use Rattle.std.specs.Prelude.{◌≡◌, ◌∷◌, ◌++◌, [], map, IfOk, OnOk};
ghost use Rattle.hs_records.specs.Books.{client_book_of};
ghost use Rattle.hs_live.specs.Live.{outgoing};
ghost use Rattle.hs_run_actors.specs.ClosedAgents.{AreMatesOf};
ghost use Rattle.hs_run.specs.Closed.{AreEndsLeft, IsClosedWith, IsClosedOf};
ghost use Rattle.hs_run.specs.Ended.{IsEnded, AreEnded, HasClosedLinks, HaveClosedLinks, items_of};
ghost use Rattle.hs_run.specs.Nodes.{sites_of};

use crate::node::ActingNode;
use crate::node_actors::NodeActors;
use hs_base::{List, Memory};
use hs_records::ClientBook;
use hs_ring::Drawer;
use hs_run_actors::{AgentActor, ClosedAgent, PartedClients, take_apart};
use std::alloc::Global;

/// What a node's clients noted, their drawers, and their agent with closed links.
#[derive(Drop)]
pub(crate) struct ClosedNode {
    pub(crate) books: List<ClientBook>,
    pub(crate) drawers: List<Drawer>,
    pub(crate) node: ClosedAgent,
}

/// What all clients noted, in the order of node and number; of each node the drawers; and the agents with closed links.
#[derive(Drop)]
pub(crate) struct ClosedNodes {
    pub(crate) books: List<ClientBook>,
    pub(crate) drawers: List<List<Drawer>>,
    pub(crate) nodes: List<ClosedAgent>,
}

/// Takes the clients of a node apart, and closes their links.
fn shut(alloc: Global, node: ActingNode) -> Result<ClosedNode, Memory>
    requires { IsEnded node.site }
    ensures { IfOk result (λ s. HasClosedLinks node.site (map client_book_of s.books.items) s.drawers.items s.node) }
{
    let ActingNode { site, failed: _ } = node;
    let NodeActors { callers, agent } = site;
    let parted = take_apart(alloc, callers);
    close_parted(alloc, agent, parted)
}

/// Closes the links of an agent whose clients were taken apart, where there was memory for that.
fn close_parted(
    alloc: Global,
    agent: AgentActor,
    parted: Result<PartedClients, Memory>,
) -> Result<ClosedNode, Memory>
    requires { IfOk parted (AreEndsLeft agent) }
    ensures { IfOk result (IsClosedOf agent parted) }
{
    close(alloc, agent, parted?)
}

/// Closes the links of an agent, of which its clients left the other ends.
fn close(alloc: Global, agent: AgentActor, parted: PartedClients) -> Result<ClosedNode, Memory>
    requires chunks { AreMatesOf (map outgoing parted.chunks.items) agent.port.chunks }
    requires crumbs { AreMatesOf parted.crumbs.items agent.port.crumbs }
    requires triggers { AreMatesOf parted.triggers.items agent.port.triggers }
    ensures { IfOk result (IsClosedWith agent parted) }
{
    let PartedClients {
        books,
        drawers,
        chunks,
        crumbs,
        triggers,
    } = parted;
    let node = agent.close(alloc, chunks, crumbs, triggers)?;
    Ok(ClosedNode {
        books,
        drawers,
        node,
    })
}

impl ClosedNodes {
    /// What a node's clients and its agent leave goes behind that of the others.
    fn add(&mut self, one: ClosedNode) -> Result<(), Memory>
        ensures books { OnOk result (map client_book_of self.new.books.items ≡ map client_book_of self.old.books.items ++ map client_book_of one.books.items) }
        ensures drawers { OnOk result (self.new.drawers.items ≡ self.old.drawers.items ++ one.drawers ∷ []) }
        ensures nodes { OnOk result (self.new.nodes.items ≡ self.old.nodes.items ++ one.node ∷ []) }
    {
        let ClosedNode {
            books,
            drawers,
            node,
        } = one;
        let nodes = self.nodes.append(node);
        let drawers = self.drawers.append(drawers);
        let books = add_all(&mut self.books, books);
        nodes?;
        drawers?;
        books
    }
}

/// Takes the clients of all nodes apart, and closes their links.
pub(crate) fn shut_all(alloc: Global, nodes: List<ActingNode>) -> Result<ClosedNodes, Memory>
    requires { AreEnded (sites_of nodes.items) }
    ensures { IfOk result (λ e. HaveClosedLinks (sites_of nodes.items) (map client_book_of e.books.items) (items_of e.drawers.items) e.nodes.items) }
{
    let mut ended = ClosedNodes {
        books: List::new(alloc),
        drawers: List::new(alloc),
        nodes: List::new(alloc),
    };
    for node in nodes.into_vec() {
        let one = shut(alloc, node)?;
        ended.add(one)?;
    }
    Ok(ended)
}

/// These books go behind the others.
fn add_all(books: &mut List<ClientBook>, more: List<ClientBook>) -> Result<(), Memory>
    ensures { OnOk result (map client_book_of books.new.items ≡ map client_book_of books.old.items ++ map client_book_of more.items) }
{
    for book in more.into_vec() {
        books.append(book)?;
    }
    Ok(())
}
