//! The replay, called by itself.

use crate::calls::EXAMPLE;
use hs_replay::into_outcome;
use hs_report::write_total;
use hs_workload::read_workload;
use std::test::Fail;

/// The example's total line: its first two records are on a page that was drawn, and the third found the pool empty.
const TOTAL: &[u8] = b"total 3 live 2 reported 0 null 1 evicted 0 abandoned 0\n";

/// A workload that is handed over comes to its outcome.
#[test]
fn a_workload_is_handed_over(rt: HostRuntime) -> Result<(), Fail> {
    let workload = read_workload(rt.alloc(), EXAMPLE.as_bytes())?;
    let outcome = into_outcome(rt.alloc(), workload)?;
    let total = write_total(rt.alloc(), &outcome)?;
    assert_eq!(rt; total.as_slice(), TOTAL);
    Ok(())
}
