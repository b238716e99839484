//! The walk of a ring through all operations, round by round.

ghost use Rattle.std.specs.Prelude.{◌≡◌, ◌≤◌, ◌<◌, ◌+◌, ◌*◌, ◌^◌, OnOk};
ghost use Rattle.std.specs.List.{AllByRecursion, flat_map};
ghost use Rattle.hs_compare.specs.Walking.{rings_after};
ghost use Rattle.hs_compare.specs.Rounds.{IsSound, events_before, part_of, all_rounds};

use crate::happening::ScriptEvent;
use crate::ring_tail::RingTail;
use crate::script::{Script, go_through};
use hs_base::Memory;

/// How many events there are before an operation, or in all where it is past the last one.
fn events_before(script: &Script, operation: usize) -> usize
    requires { IsSound script.now }
    ensures { result ≡ events_before script.now operation }
{
    let last = script.ends.len() - 1;
    script.ends.as_slice()[operation.min(last)]
}

/// The events of so many operations from one on.
fn part_of(script: &Script, from: usize, count: usize) -> &[ScriptEvent]
    requires sound { IsSound script.now }
    requires fits { from + count < 2 ^ 64 }
    ensures { result.now ≡ part_of from count script.now }
{
    let begin = events_before(script, from);
    let end = events_before(script, from + count);
    &script.events.as_slice()[begin..end]
}

/// Takes a ring through so many operations of each client, from one on.
fn go_round(
    ring: &mut RingTail,
    scripts: &[Script],
    from: usize,
    count: usize,
) -> Result<(), Memory>
    requires sound { AllByRecursion IsSound scripts.now }
    requires fits { from + count < 2 ^ 64 }
    ensures { OnOk result (ring.new ≡ rings_after ring.old (flat_map (part_of from count) scripts.now)) }
{
    for script in scripts {
        go_through(ring, part_of(script, from, count))?;
    }
    Ok(())
}

/// Takes a ring through all operations, in so many rounds.
pub(crate) fn walk(
    ring: &mut RingTail,
    scripts: &[Script],
    stride: usize,
    rounds: usize,
) -> Result<(), Memory>
    requires sound { AllByRecursion IsSound scripts.now }
    requires fits { rounds * stride < 2 ^ 64 }
    ensures { OnOk result (ring.new ≡ rings_after ring.old (all_rounds stride scripts.now rounds)) }
{
    for round in 0..rounds {
        go_round(ring, scripts, round * stride, stride)?;
    }
    Ok(())
}
