//! Runs of many threads.

use crate::gated::{called, checked};
use hs_base::OpenGate;
use std::alloc::{AllocError, Global};
use std::test::Fail;

/// A client with one record, of a trace of its own.
fn push_client(alloc: Global, text: &mut String, node: u32, client: u32) -> Result<(), AllocError> {
    let trace = 16 * u64::from(node) + u64::from(client);
    let lines = format!(in alloc; "client {node} {client}\nbegin {trace:016x}\npoint 1 aa\nend\n")?;
    text.push_str(lines.as_str())
}

/// A workload of such clients.
pub(crate) fn segments(
    alloc: Global,
    nodes: u32,
    clients: u32,
    buffers: u32,
) -> Result<String, AllocError> {
    let mut text = format!(in alloc;
        "hindsight 1\nnodes {nodes}\nclients {clients}\nbuffers {buffers}\nsize 64\nthreshold {buffers}\ntraces 8\npins 4\nstride 16\n"
    )?;
    for node in 0..nodes {
        for client in 0..clients {
            push_client(alloc, &mut text, node, client)?;
        }
    }
    text.push_str("done\n")?;
    Ok(text)
}

/// So many nodes, clients of each and buffers of each, and the total line.
const TABLE: [([u32; 3], &str); 3] = [
    // of sixteen clients one gets the only buffer
    (
        [1, 16, 1],
        "total 16 live 1 reported 0 null 15 evicted 0 abandoned 0\ndone\n",
    ),
    (
        [16, 1, 1],
        "total 16 live 16 reported 0 null 0 evicted 0 abandoned 0\ndone\n",
    ),
    // 256 clients, 16 agents and the coordinator
    (
        [16, 16, 8],
        "total 256 live 128 reported 0 null 128 evicted 0 abandoned 0\ndone\n",
    ),
];

#[test]
fn many_threads_at_once(rt: HostRuntime) -> Result<(), Fail> {
    for ([nodes, clients, buffers], total) in TABLE {
        let input = segments(rt.alloc(), nodes, clients, buffers)?;
        let written = called(&rt, &["run"], input.as_str(), &OpenGate)?;
        assert!(rt; written.ends_with(total.as_bytes()));
        let text = str::from_utf8(&written).ok().ok_or("a text")?;
        let again = checked(&rt, input.as_str(), text)?;
        assert_eq!(rt; again.as_slice(), written.as_slice());
    }
    Ok(())
}
