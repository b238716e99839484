//! What a node says, printed. In a service each message goes to a hub, as the bytes that it is.

use anyhow::{Result, bail};
use hs_base::{NodeId, Told};
use hs_node::Node;
use hs_node_client::NodeClient;
use hs_wire::{Body, Reported, Standing, Wholeness, read};
use hs_words::read_page;

/// Carries away the messages that wait, at most a hundred. What was sent is not offered again, and waits until it is acknowledged: here at
/// once, in a service when the broker has it.
pub fn carry<R: Print + AllocGlobal>(rt: &R, node: &mut Node) -> Result<()> {
    for _ in 0..100 {
        let Some((number, bytes)) = node.next() else {
            return Ok(());
        };
        show(rt, number, bytes)?;
        node.sent(number);
        node.acknowledged(number);
    }
    Ok(())
}

/// Prints a message.
fn show<R: Print + AllocGlobal>(rt: &R, number: u64, bytes: &[u8]) -> Result<()> {
    let Some(message) = read(bytes) else {
        bail!("bytes that are no message");
    };
    print!(rt; "message {number}, ")?;
    match message.body {
        Body::Hello(hello) => println!(rt; "hello: {}", text(rt, hello.name)?)?,
        Body::Told(told) => show_told(rt, &told)?,
        Body::Ask(_) => println!(rt; "an ask, which only a hub sends")?,
        Body::Reported(reported) => show_reported(rt, &reported)?,
        Body::Standing(standing) => show_standing(rt, &standing)?,
    }
    Ok(())
}

/// Bytes as a text, as far as they are one.
fn text<R: AllocGlobal>(rt: &R, bytes: &[u8]) -> Result<String> {
    Ok(String::from_utf8_lossy(rt.alloc(), bytes)?)
}

/// Prints that a trigger was admitted. A hub asks the node to which the crumbs lead for the same traces.
fn show_told<R: Print + AllocGlobal>(rt: &R, told: &Told) -> Result<()> {
    println!(rt;
        "told: trigger {} of trace {} with {} lateral",
        told.group.trigger.0,
        told.group.lead.0,
        told.laterals.len()
    )?;
    for node in 0..128 {
        if told.crumbs.contains(NodeId(node)) {
            println!(rt; "  a crumb leads to node {node}")?;
        }
    }
    Ok(())
}

/// Prints a page that the node reports, with its records.
fn show_reported<R: Print + AllocGlobal>(rt: &R, reported: &Reported<'_>) -> Result<()> {
    let page = read_page(rt.alloc(), reported.page)?;
    println!(rt;
        "reported: page {} of client {}, trace {}",
        page.header.page, page.header.client.number, page.header.trace.0
    )?;
    for point in page.points.as_slice() {
        println!(rt;
            "  {} {}",
            point.moment,
            text(rt, point.payload.as_slice())?
        )?;
    }
    Ok(())
}

/// What a standing says of a trace.
fn words_of(wholeness: Wholeness) -> &'static str {
    match wholeness {
        Wholeness::WholeSince => "whole",
        Wholeness::Lost => "something was lost",
        Wholeness::UnheardSince => "not heard of",
        Wholeness::Unknown => "not known yet",
        Wholeness::Open => "a thread still has it open",
    }
}

/// Prints how the node stands to a trace: whether all that was written of it was handed out.
fn show_standing<R: Print + AllocGlobal>(rt: &R, standing: &Standing) -> Result<()> {
    let words = words_of(standing.wholeness);
    println!(rt;
        "standing: trace {}, {words}, pages {}",
        standing.trace.0, standing.pages
    )?;
    Ok(())
}

/// Prints what a client counted.
pub fn show_counts<R: Print + AllocGlobal>(rt: &R, number: u16, client: &NodeClient) -> Result<()> {
    let counts = client.counts();
    println!(rt;
        "client {number}: {} records, {} pages that found no buffer",
        counts.points, counts.null_pages
    )?;
    Ok(())
}
