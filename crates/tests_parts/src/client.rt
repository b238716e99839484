//! A core that counts as many calls as may be, one that counts none, a bare one, and a renewed one. What a client writes is shown by `examples/` and `cases/pages`.

use crate::rows::row;
use hs_base::limits::{MAX_OPERATIONS, MAX_SIZE, MIN_SIZE};
use hs_base::{ClientId, Memory, TraceId};
use hs_client::{Begun, ClientCore, Ended};
use std::alloc::Global;

const OWNER: ClientId = ClientId { node: 0, number: 0 };

/// Opens so many traces and closes each. Answers whether all of these calls are taken.
fn opens_and_closes(core: &mut ClientCore<()>, count: u32) -> bool {
    let mut taken = true;
    for trace in 0..count {
        taken &= core.begin(TraceId(u128::from(trace))) == Begun::Began;
        taken &= matches!(core.end(), Ended::Ended(None));
    }
    taken
}

/// Of a core that counts 262,144 calls all are taken, and then none.
fn most_calls(alloc: Global) -> Result<bool, Memory> {
    let mut core = ClientCore::<()>::make(alloc, OWNER, MAX_SIZE, MAX_OPERATIONS)?;
    let taken = opens_and_closes(&mut core, MAX_OPERATIONS / 2);
    Ok(taken && core.begin(TraceId(0)) == Begun::Spent)
}

/// Of a core that counts none no call is taken, and its book is empty.
fn no_call(alloc: Global) -> Result<bool, Memory> {
    let mut core = ClientCore::<()>::make(alloc, OWNER, MIN_SIZE, 0)?;
    let spent = core.begin(TraceId(0)) == Begun::Spent;
    let book = core.finish();
    Ok(spent && book.draws.is_empty() && book.pages.is_empty())
}

/// A bare core counts as many calls as there are numbers, and takes no memory for them.
fn bare_calls() -> bool {
    let mut core = ClientCore::<()>::bare(OWNER, MIN_SIZE, u32::MAX);
    let taken = opens_and_closes(&mut core, MAX_OPERATIONS);
    taken && core.left() == u32::MAX - 2 * MAX_OPERATIONS
}

/// A core that is spent counts anew once it is renewed.
fn renewed_calls() -> bool {
    let mut core = ClientCore::<()>::bare(OWNER, MIN_SIZE, 2);
    let taken = opens_and_closes(&mut core, 1);
    let spent = core.begin(TraceId(0)) == Begun::Spent;
    if core.trace().is_some() || core.renewed() > 0 {
        return false;
    }
    core.renew(4);
    let again = opens_and_closes(&mut core, 2);
    taken && spent && again && core.renewed() == 1 && core.left() == 0
}

#[test]
fn cores(rt: HostRuntime) {
    row(&rt, "most calls", most_calls(rt.alloc()));
    row(&rt, "no call", no_call(rt.alloc()));
    row(&rt, "bare calls", Ok(bare_calls()));
    row(&rt, "renewed calls", Ok(renewed_calls()));
}
