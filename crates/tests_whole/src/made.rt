//! Made workloads.

use crate::calls::{BLIND, Streams, called, outcome};
use hs_records::Workload;
use hs_workload::read_workload;
use std::marker::Sync;
use std::process::Abort;
use std::sync::Wait;
use std::test::Fail;
use std::thread::Threads;

/// The workload that is made of this seed and size, without a look at the source.
pub(crate) fn made<R: Threads + Wait + Sync + AllocGlobal + Abort>(
    rt: &R,
    seed: &str,
    size: &str,
) -> Result<Workload, Fail> {
    let (status, text) = called(rt, &["make", seed, size], &[], &BLIND)?;
    assert_eq!(rt; status, 0);
    Ok(read_workload(rt.alloc(), &text)?)
}

/// Three nodes and four clients each, also of the greatest size.
#[test]
fn workloads_are_made(rt: HostRuntime) -> Result<(), Fail> {
    for [seed, size] in [["7", "3"], ["1", "10000"]] {
        let workload = made(&rt, seed, size)?;
        assert_eq!(rt; workload.settings.nodes, 3);
        assert_eq!(rt; workload.clients.len(), 12);
    }
    Ok(())
}

/// Each write of a made workload fails in turn.
#[test]
fn a_made_text_is_cut_off(rt: HostRuntime) -> Result<(), Fail> {
    let whole = outcome(&rt, &["make", "7", "3"], &[])?;
    for call in 0..3 {
        let streams = Streams {
            most: 100,
            read_fails: &[],
            write_fails: &[call],
        };
        let (status, written) = called(&rt, &["make", "7", "3"], &[], &streams)?;
        assert_eq!(rt; status, 5);
        assert_eq!(rt; Some(written.as_slice()), whole.get(..100 * call as usize));
    }
    Ok(())
}
