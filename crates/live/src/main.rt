//! A node of a service, from its making to its report: two clients record in threads of their own, a third thread makes the node's
//! passes, and a trigger fires when all requests are over. The node then tells of it, and hands out what it still has of these requests.
#![tactic(auto)]

mod report;
mod work;

use anyhow::{Context, Result, bail};
use hs_base::{Laterals, TraceId, Trigger, TriggerId};
use hs_node::{MadeNode, Node, Passed, make_node};
use hs_node_client::{CallAnswer, NodeClient};
use hs_wire::Hello;
use work::work_and_pass;

/// What the service runs with (`docs/FORMATS.md`, "Settings of a service"): two nodes of two clients each, and one trigger id.
const SETTINGS: &[u8] =
    b"nodes 2\nclients 2\nbuffers 64\nsize 128\nbacklog 16\nclaims 16\nremember 128\ntriggerid 1\n";

/// The number of this node, and which of its lives this is. Each life needs a number that no earlier one had, such as the time.
const NODE: u16 = 0;

const EPOCH: u64 = 1;

/// A checkout failed, and the request of trace 21 stood in its way.
const SYMPTOM: TriggerId = TriggerId(1);

const FAILED: TraceId = TraceId(12);

const IN_ITS_WAY: TraceId = TraceId(21);

/// How many passes the report gets. A node in a service makes passes as long as it lives.
const PASSES: u32 = 8;

/// Says who the node is. The digest is one of the settings that all nodes share. Nobody compares it here.
fn say_hello(node: &mut Node) -> Result<()> {
    let hello = Hello {
        digest: [0; 32],
        name: b"shop",
    };
    node.hello(&hello).ok().context("no place for a hello")?;
    Ok(())
}

/// Fires the trigger. The traces are closed already: it needs none that is open.
fn fire(client: &mut NodeClient) -> Result<()> {
    let mut laterals = Laterals::none();
    laterals.push(IN_ITS_WAY);
    let trigger = Trigger {
        moment: 900,
        trigger: SYMPTOM,
        lead: FAILED,
        laterals,
    };
    match client.trigger(&trigger) {
        CallAnswer::Done => Ok(()),
        called => bail!("the trigger was not sent: {called:?}"),
    }
}

/// Makes passes, and carries away what the node says after each.
fn look_back<R: Print + AllocGlobal>(rt: &R, node: &mut Node) -> Result<()> {
    for _ in 0..PASSES {
        if node.pass() == Passed::Spent {
            bail!("memory is wanting");
        }
        report::carry(rt, node)?;
    }
    Ok(())
}

fn main(rt: HostRuntime) -> Result<()> {
    let Ok(made) = make_node(rt.alloc(), SETTINGS, NODE, EPOCH) else {
        bail!("no node: its settings are refused, or memory is wanting");
    };
    let MadeNode {
        mut node,
        mut clients,
    } = made;
    say_hello(&mut node)?;
    let second = clients.pop().context("a second client")?;
    let first = clients.pop().context("a first client")?;
    let (mut first, second, mut node) = work_and_pass(&rt, first, second, node);
    report::show_counts(&rt, 0, &first)?;
    report::show_counts(&rt, 1, &second)?;
    fire(&mut first)?;
    first.flush();
    look_back(&rt, &mut node)
}
