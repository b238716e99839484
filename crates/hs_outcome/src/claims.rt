//! The claimed traces.

ghost use Rattle.std.specs.Prelude.{◌≡◌, ◌++◌, map, IfOk, OnOk};
ghost use Rattle.hs_law_outcome.specs.Outcomes.{rising_traces};
ghost use Rattle.hs_outcome.specs.Claims.{all_claimed};

use hs_base::{List, Memory, TraceId};
use hs_records::{AgentBook, Claim};
use std::alloc::Global;

/// Appends the traces of these claims.
fn push_claims(traces: &mut Vec<TraceId>, claims: &[Claim]) -> Result<(), Memory>
    ensures { OnOk result (traces.new.items ≡ traces.old.items ++ map (λ claim. claim.trace) claims.now) }
{
    for claim in claims {
        traces.push(claim.trace)?;
    }
    Ok(())
}

/// The traces that the agents claimed, agent by agent.
fn claims(alloc: Global, agents: &[AgentBook]) -> Result<Vec<TraceId>, Memory>
    ensures { IfOk result (λ traces. traces.items ≡ all_claimed agents.now) }
{
    let mut traces = Vec::new(alloc);
    for book in agents {
        push_claims(&mut traces, book.claims.as_slice())?;
    }
    Ok(traces)
}

/// Each trace that some agent claimed, once and rising.
pub(crate) fn claimed_traces(alloc: Global, agents: &[AgentBook]) -> Result<List<TraceId>, Memory>
    ensures { IfOk result (λ traces. traces.items ≡ rising_traces (all_claimed agents.now)) }
{
    let mut traces = claims(alloc, agents)?;
    traces.sort_unstable();
    traces.dedup();
    Ok(List::from_vec(traces))
}
