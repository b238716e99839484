//! Node 0 of two, with one client and eight buffers of 64 bytes: its passes, and what it says.

use crate::bytes::{ASK, HELLO, REPORTED, SETTINGS, STANDING, TOLD, fires, is_message, records};
use crate::rows::row;
use hs_base::Memory;
use hs_inbox::AskDelivered;
use hs_node::{MadeNode, Node, NodeFault, Passed, make_node};
use hs_node_client::NodeClient;
use hs_wire::Hello;
use std::alloc::Global;

/// The node with its client.
#[derive(Drop)]
struct Pair {
    node: Node,
    client: NodeClient,
}

fn make_pair(alloc: Global) -> Result<Pair, Memory> {
    let Ok(made) = make_node(alloc, SETTINGS, 0, 1) else {
        return Err(Memory);
    };
    let MadeNode { node, mut clients } = made;
    match clients.pop() {
        Some(client) => Ok(Pair { node, client }),
        None => Err(Memory),
    }
}

/// Whether the message of this number and this kind is offered, with this byte at a place. Then it is handed out.
fn hands_out(node: &mut Node, number: u64, kind: u8, place: usize, byte: u8) -> bool {
    is_message(node.next(), number, kind, place, byte) && node.sent(number)
}

/// Whether the page that is offered has 47 bytes, of which the last five are the payload: a page's header has 32, and a piece 10 before its
/// payload. It stands behind 55 bytes.
fn is_the_page(node: &Node) -> bool {
    match node.next() {
        Some((_, bytes)) => { bytes.len() == 102 && bytes.get(97..) == Some(b"login".as_slice()) }
        None => false,
    }
}

/// The chunk comes in the first pass, which says nothing. In the second a trigger fires (why 0), the page of the chunk is reported (it has 47
/// bytes), and the node's part of the trace is whole (0).
fn reports(pair: &mut Pair) -> bool {
    let recorded = records(&mut pair.client);
    let first = pair.node.pass();
    let silent = pair.node.next().is_none();
    let fired = fires(&mut pair.client);
    let second = pair.node.pass();
    recorded
        && fired
        && silent
        && first == Passed::Done
        && second == Passed::Done
        && hands_out(&mut pair.node, 0, TOLD, 43, 0)
        && is_the_page(&pair.node)
        && hands_out(&mut pair.node, 1, REPORTED, 54, 47)
        && hands_out(&mut pair.node, 2, STANDING, 42, 0)
        && pair.node.next().is_none()
        && pair.node.limited() == 0
}

/// The bucket of the id has one token: of two triggers of one moment the first fires, and the second is counted.
fn limits(pair: &mut Pair) -> bool {
    let fired = fires(&mut pair.client);
    let first = pair.node.pass();
    let none = pair.node.limited();
    let again = fires(&mut pair.client);
    let second = pair.node.pass();
    fired
        && again
        && first == Passed::Done
        && second == Passed::Done
        && none == 0
        && pair.node.limited() == 1
}

/// The ask waits for the pass, which answers it (why 1). Of the trace nothing was heard (2). The group claims its one trace.
fn answers(pair: &mut Pair) -> bool {
    let delivered = pair.node.deliver(&ASK);
    let silent = pair.node.next().is_none();
    let passed = pair.node.pass();
    delivered == AskDelivered::Taken
        && silent
        && passed == Passed::Done
        && hands_out(&mut pair.node, 0, TOLD, 43, 1)
        && hands_out(&mut pair.node, 1, STANDING, 42, 2)
        && pair.node.claims().len() == 1
}

/// A hello has the number 0, and the length of its name at place 52. It is handed out once, offered again, and gone when it is acknowledged.
fn carries(pair: &mut Pair) -> bool {
    let said = pair.node.hello(&Hello {
        digest: [7; 32],
        name: b"n0",
    });
    let handed = hands_out(&mut pair.node, 0, HELLO, 52, 2);
    let silent = pair.node.next().is_none() && !pair.node.sent(0);
    pair.node.again();
    let again = hands_out(&mut pair.node, 0, HELLO, 52, 2);
    let gone = pair.node.acknowledged(0) && !pair.node.acknowledged(0);
    pair.node.again();
    said == Ok(0) && handed && silent && again && gone && pair.node.next().is_none()
}

/// What is looked at.
#[derive(Clone, Copy)]
enum Row {
    Reports,
    Limits,
    Answers,
    Carries,
}

/// Makes a node for a row. One function makes those of all rows, since its proof grows with what it lets go.
fn with_node(alloc: Global, row: Row) -> Result<bool, Memory> {
    let mut pair = make_pair(alloc)?;
    Ok(match row {
        Row::Reports => reports(&mut pair),
        Row::Limits => limits(&mut pair),
        Row::Answers => answers(&mut pair),
        Row::Carries => carries(&mut pair),
    })
}

/// A text that no newline ends makes no node.
fn refuses(alloc: Global) -> Result<bool, Memory> {
    match make_node(alloc, b"nodes 2", 0, 1) {
        Ok(_) => Ok(false),
        Err(fault) => Ok(matches!(fault, NodeFault::Settings(_))),
    }
}

#[test]
fn a_node(rt: HostRuntime) {
    let alloc = rt.alloc();
    row(&rt, "reports", with_node(alloc, Row::Reports));
    row(&rt, "limits", with_node(alloc, Row::Limits));
    row(&rt, "answers", with_node(alloc, Row::Answers));
    row(&rt, "carries", with_node(alloc, Row::Carries));
    row(&rt, "refuses", refuses(alloc));
}
