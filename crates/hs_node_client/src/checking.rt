//! Whether clients can be made by limits and rules.

ghost use Rattle.std.specs.Prelude.{◌≡◌, ◌↔◌, ◌≤◌, ◌<◌, true, false, All, IfOk, IfErr, IsTrue, OnOk, OnErr};
ghost use Rattle.hs_base.specs.Rules.{IsAutoRule, IsWindow, IsShare, is_declared, fired_by};
ghost use Rattle.hs_node_client.specs.Fitting.{AreFit, AreSizes, HasFault, HasSizeFault, IsBacklog, IsFitAuto};

use crate::limits::{ClientLimits, MAX_BACKLOG, MIN_CALLS, MakeFault};
use hs_base::limits::{
    MAX_LATERALS, MAX_SIZE, MAX_WINDOW, MIN_SIZE, MIN_WINDOW, MOST_BUFFERS, MOST_CLIENTS,
    MOST_NODES, WHOLE_SHARE,
};
use hs_base::{AutoRule, List, TriggerId, TriggerRule};

/// Tests the limits and the rules of autotriggers, in this order.
pub(crate) fn check(
    limits: &ClientLimits,
    autos: &List<AutoRule>,
    triggers: &List<TriggerRule>,
    nodes: u16,
) -> Result<(), MakeFault>
    ensures fit { OnOk result (AreFit limits.now autos.now.items triggers.now.items nodes) }
    ensures fault { IfErr result (HasFault limits.now autos.now.items triggers.now.items nodes) }
{
    if nodes == 0 || nodes > MOST_NODES || limits.node >= nodes {
        return Err(MakeFault::Node);
    }
    check_sizes(limits)?;
    if are_fit(autos.as_slice(), triggers.as_slice()) {
        Ok(())
    } else {
        Err(MakeFault::Autos)
    }
}

/// Tests how much there is of each thing.
fn check_sizes(limits: &ClientLimits) -> Result<(), MakeFault>
    ensures fit { OnOk result (AreSizes limits.now) }
    ensures fault { IfErr result (HasSizeFault limits.now) }
{
    if limits.clients == 0 || limits.clients > MOST_CLIENTS {
        return Err(MakeFault::Clients);
    }
    if limits.buffers == 0 || limits.buffers > MOST_BUFFERS {
        return Err(MakeFault::Buffers);
    }
    if limits.size < MIN_SIZE || limits.size > MAX_SIZE {
        return Err(MakeFault::Size);
    }
    if !is_backlog(limits.backlog) || !is_backlog(limits.notes) {
        return Err(MakeFault::Backlog);
    }
    if limits.calls < MIN_CALLS {
        return Err(MakeFault::Calls);
    }
    Ok(())
}

fn is_backlog(places: u32) -> bool
    ensures { IsTrue result ↔ IsBacklog places }
{
    places >= 1 && places <= MAX_BACKLOG
}

/// Whether each autotrigger is within its limits and fires a declared id.
fn are_fit(autos: &[AutoRule], triggers: &[TriggerRule]) -> bool
    ensures fit { result ≡ true → All (IsFitAuto triggers.now) autos.now }
    ensures unfit { result ≡ false → All (IsFitAuto triggers.now) autos.now → ⊥ }
{
    for auto in autos {
        if !is_within(*auto) || !is_declared_in(triggers, fired_id(*auto)) {
            return false;
        }
    }
    true
}

/// Whether an autotrigger is within its limits.
fn is_within(auto: AutoRule) -> bool
    ensures { IsTrue result ↔ IsAutoRule auto }
{
    match auto {
        AutoRule::Exception { .. } => true,
        AutoRule::Percentile { window, share, .. } | AutoRule::Category { window, share, .. } => {
            is_window(window) && is_share(share)
        }
        AutoRule::Queue {
            window,
            share,
            laterals,
            ..
        } => is_window(window)
            && is_share(share)
            && laterals >= 1
            && laterals <= MAX_LATERALS as u32,
    }
}

fn is_window(window: u32) -> bool
    ensures { IsTrue result ↔ IsWindow window }
{
    window >= MIN_WINDOW && window <= MAX_WINDOW
}

fn is_share(share: u32) -> bool
    ensures { IsTrue result ↔ IsShare share }
{
    share >= 1 && share < WHOLE_SHARE
}

/// The trigger id that an autotrigger fires.
pub(crate) fn fired_id(auto: AutoRule) -> TriggerId
    ensures { result ≡ fired_by auto }
{
    match auto {
        AutoRule::Exception { trigger }
        | AutoRule::Percentile { trigger, .. }
        | AutoRule::Category { trigger, .. }
        | AutoRule::Queue { trigger, .. } => trigger,
    }
}

/// Whether an id is declared.
fn is_declared_in(triggers: &[TriggerRule], id: TriggerId) -> bool
    ensures { result ≡ is_declared triggers.now id }
{
    triggers.iter().any(|rule| rule.id.0 == id.0)
}
