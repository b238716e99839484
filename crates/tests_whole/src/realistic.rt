//! A workload as an operator may have it: three nodes of four clients each, and one slow request among 1,600.

use crate::calls::{assert_lawful, outcome};
use std::alloc::{AllocError, Global};
use std::test::Fail;

const HEAD: &str = "hindsight 1
nodes 3
clients 4
buffers 64
size 32768
threshold 48
traces 1000
pins 64
stride 6
triggerid 1 1 10 1
auto 0 queue 1 100 9900 8
";

/// 100 bytes.
const PAYLOAD: &str =
    "aaaaaaaaaaaaaaaaaaaaaaaaaaaaaaaaaaaaaaaaaaaaaaaaaaaaaaaaaaaaaaaaaaaaaaaaaaaaaaaaaaaaaaaaaaaaaaaaaaaaaaaaaaaaaaaaaaaaaaaaaaaaaaaaaaaaaaaaaaaaaaaaaaaaaaaaaaaaaaaaaaaaaaaaaaaaaaaaaaaaaaaaaaaaaaaaaaaaaaaa";

const TOTAL: &str = "total 14400 live 432 reported 81 null 0 evicted 13887 abandoned 0\ndone\n";

const REQUESTS: u32 = 400;

/// The request that is slow at client 0 of node 0.
const SLOW: u32 = 300;

/// Pushes so many records of this moment.
fn push_points(
    alloc: Global,
    text: &mut String,
    moment: u64,
    count: u32,
) -> Result<(), AllocError> {
    let line = format!(in alloc; "point {moment} {PAYLOAD}\n")?;
    for _point in 0..count {
        text.push_str(line.as_str())?;
    }
    Ok(())
}

/// What a request does at a client: records, a crumb to the next node, and at node 0 a sample of how long it took.
fn push_request(
    alloc: Global,
    text: &mut String,
    node: u16,
    client: u32,
    request: u32,
) -> Result<(), AllocError> {
    let moment = u64::from(request) * 1000;
    let begin = format!(in alloc; "begin {client:012x}{request:04x}\n")?;
    text.push_str(begin.as_str())?;
    push_points(alloc, text, moment, 2 + u32::from(node))?;
    let is_slow = client == 0 && request == SLOW;
    let value = if is_slow { 5000 } else { 1000 };
    let crumb = match node {
        0 => format!(in alloc; "crumb 1\nsample {moment} 0 {value}\n")?,
        1 => "crumb 2\n".to_string(alloc)?,
        _ => String::new(alloc),
    };
    text.push_str(crumb.as_str())?;
    text.push_str("end\n")
}

fn workload(alloc: Global) -> Result<String, AllocError> {
    let mut text = String::from_str(alloc, HEAD)?;
    for node in 0u16..3 {
        for client in 0u32..4 {
            text.push_str(format!(in alloc; "client {node} {client}\n")?.as_str())?;
            for request in 0..REQUESTS {
                push_request(alloc, &mut text, node, client, request)?;
            }
        }
    }
    text.push_str("done\n")?;
    Ok(text)
}

/// The records of a request, from all nodes.
fn push_report(alloc: Global, text: &mut String, request: u32) -> Result<(), AllocError> {
    text.push_str(format!(in alloc; "report {request:016x}\n")?.as_str())?;
    for node in 0u32..3 {
        let each = 2 + node;
        for point in 0..each {
            let record = request.saturating_mul(each).saturating_add(point);
            let line = format!(in alloc; "{node} 0 {record} {request}000 {PAYLOAD}\n")?;
            text.push_str(line.as_str())?;
        }
    }
    Ok(())
}

/// The reports of the slow request and of the eight before it, whole.
fn reports(alloc: Global) -> Result<String, AllocError> {
    let mut text = String::from_str(alloc, "reports 9\n")?;
    for request in SLOW - 8..SLOW + 1 {
        push_report(alloc, &mut text, request)?;
    }
    text.push_str("ledger 14400\n")?;
    Ok(text)
}

#[test]
fn the_slow_request_is_reported(rt: HostRuntime) -> Result<(), Fail> {
    let input = workload(rt.alloc())?;
    let written = outcome(&rt, &["replay"], input.as_bytes())?;
    let text = str::from_utf8(&written).ok().ok_or("a text")?;
    assert!(rt; text.ends_with(TOTAL));
    let wanted = reports(rt.alloc())?;
    assert!(rt; text.contains(wanted.as_str()));
    assert_lawful(&rt, input.as_str(), &written)
}

/// The total lines that a run may have. The nodes are asked one after another, a few rounds apart, so the oldest of the nine
/// traces may be evicted at node 1 by then, with three records, and the three oldest at node 2, with four each.
const TOTALS: [&str; 8] = [
    TOTAL,
    "total 14400 live 432 reported 66 null 0 evicted 13902 abandoned 0\ndone\n",
    "total 14400 live 432 reported 69 null 0 evicted 13899 abandoned 0\ndone\n",
    "total 14400 live 432 reported 70 null 0 evicted 13898 abandoned 0\ndone\n",
    "total 14400 live 432 reported 73 null 0 evicted 13895 abandoned 0\ndone\n",
    "total 14400 live 432 reported 74 null 0 evicted 13894 abandoned 0\ndone\n",
    "total 14400 live 432 reported 77 null 0 evicted 13891 abandoned 0\ndone\n",
    "total 14400 live 432 reported 78 null 0 evicted 13890 abandoned 0\ndone\n",
];

/// Whether a text ends with one of them.
fn ends_with_a_total(text: &str) -> bool {
    let mut found = false;
    for total in TOTALS {
        found = found || text.ends_with(total);
    }
    found
}

/// The nine traces are reported of a run too, and as much is live at the end.
#[test]
fn the_slow_request_is_reported_of_a_run(rt: HostRuntime) -> Result<(), Fail> {
    let input = workload(rt.alloc())?;
    let written = outcome(&rt, &["run"], input.as_bytes())?;
    let text = str::from_utf8(&written).ok().ok_or("a text")?;
    assert!(rt; text.contains("\nreports 9\n"));
    assert!(rt; ends_with_a_total(text));
    assert_lawful(&rt, input.as_str(), &written)
}

/// What each watcher sees at last: all rounds, operations and records. Of the last round's chunks some may still wait.
const SEEN: &str = "\nseen 400 operations 28800 records 14400 null 0 taken ";

/// A run under watch comes to the same.
#[test]
fn the_slow_request_is_watched(rt: HostRuntime) -> Result<(), Fail> {
    let input = workload(rt.alloc())?;
    let written = outcome(&rt, &["run", "--watch"], input.as_bytes())?;
    let text = str::from_utf8(&written).ok().ok_or("a text")?;
    let (front, seen) = text.split_once("watcher 0\n").ok_or("a watcher")?;
    assert!(rt; ends_with_a_total(front));
    assert_eq!(rt; seen.split(SEEN).count(), 3);
    assert_lawful(&rt, input.as_str(), front.as_bytes())
}
