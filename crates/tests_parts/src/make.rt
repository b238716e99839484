//! As many requests as may be are made. What is made of a seed stands in `cases/made`, and that it is read back in `cases/convert`.

use crate::rows::row;
use hs_base::Memory;
use hs_base::limits::MAX_REQUESTS;
use hs_make::make_workload;
use hs_records::Workload;
use std::alloc::Global;

/// The operations in as many requests of seed 7 as may be, worked out by a program of its own.
const MOST_REQUESTS: usize = 109_887;

/// How many operations all clients have.
fn count_operations(workload: &Workload) -> usize {
    let mut count = 0usize;
    for client in workload.clients.as_slice() {
        count = count.saturating_add(client.len());
    }
    count
}

fn most_requests(alloc: Global) -> Result<bool, Memory> {
    let workload = make_workload(alloc, 7, MAX_REQUESTS)?;
    Ok(count_operations(&workload) == MOST_REQUESTS)
}

#[test]
fn made_workloads(rt: HostRuntime) {
    row(&rt, "most requests", most_requests(rt.alloc()));
}
