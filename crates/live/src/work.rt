//! The requests that the threads of the service serve, and the node's passes meanwhile.

use hs_base::{NodeId, TraceId};
use hs_node::{Node, Passed};
use hs_node_client::NodeClient;
use std::sync::Wait;
use std::sync::atomic::{AtomicBool, Ordering};
use std::thread;
use std::thread::{Threads, join};

/// Serves a request: opens its trace, records what happens at its moment in microseconds, notes that it goes on to node 1, and closes the
/// trace. Each call answers at once whether it was done. A service goes on whatever the answer is: the client counts what it refused.
fn request(client: &mut NodeClient, trace: u128, moment: u64, records: [&[u8]; 3]) {
    let _ = client.begin(TraceId(trace));
    for payload in &records {
        let _ = client.point(moment, payload);
    }
    let _ = client.crumb(NodeId(1));
    let _ = client.end();
}

/// The first thread, which owns its client. What found no room in the rings meanwhile is put through at the end.
fn serve_shop(mut client: NodeClient) -> NodeClient {
    request(
        &mut client,
        11,
        100,
        [b"GET /cart", b"2 items", b"status 200"],
    );
    request(
        &mut client,
        12,
        300,
        [b"POST /checkout", b"waits for a lock", b"status 500"],
    );
    client.flush();
    client
}

/// The second thread.
fn serve_stock(mut client: NodeClient) -> NodeClient {
    request(
        &mut client,
        21,
        250,
        [b"POST /stock", b"takes the lock", b"status 200"],
    );
    request(
        &mut client,
        22,
        700,
        [b"GET /stock", b"5 items", b"status 200"],
    );
    client.flush();
    client
}

/// The two clients, each in a thread of its own. At the end it says that both are done.
fn serve_both<R: Threads>(
    rt: &R,
    first: NodeClient,
    second: NodeClient,
    done: &AtomicBool,
) -> (NodeClient, NodeClient) {
    let clients = join(rt, move || serve_shop(first), move || serve_stock(second));
    done.store(true, Ordering::SeqCst);
    clients
}

/// Makes the node's passes until the clients are done, and one more for what came last.
fn pass_meanwhile<R: Wait>(rt: &R, mut node: Node, done: &AtomicBool) -> Node {
    for _ in rt.forever() {
        let is_last = done.load(Ordering::SeqCst);
        if node.pass() == Passed::Spent || is_last {
            return node;
        }
        thread::yield_now();
    }
    unreachable!()
}

/// The clients at work and the node at its passes, each in a thread of its own. All come back when the threads have ended.
pub fn work_and_pass<R: Threads + Wait + Sync>(
    rt: &R,
    first: NodeClient,
    second: NodeClient,
    node: Node,
) -> (NodeClient, NodeClient, Node) {
    let flag = AtomicBool::new(false);
    let done = &flag;
    let (clients, node) = join(
        rt,
        move || serve_both(rt, first, second, done),
        move || pass_meanwhile(rt, node, done),
    );
    let (first, second) = clients;
    (first, second, node)
}
