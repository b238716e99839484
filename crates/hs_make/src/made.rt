//! The made workload.

ghost use Rattle.std.specs.Prelude.{◌≡◌, ◌≤◌, [], map, vec_len, IfOk};
ghost use Rattle.hs_base.specs.declared.limits.TheConstants.{MAX_REQUESTS};
ghost use Rattle.hs_records.specs.Plain.{settings_of};
ghost use Rattle.hs_records.specs.Views.{operations_of, workload_of};
ghost use Rattle.hs_records.specs.Validity.{IsValid};
ghost use Rattle.hs_make.specs.Words.{each_below};
ghost use Rattle.hs_make.specs.Made.{made_settings, made_workload};

use crate::request::{MADE_CLIENTS, MADE_NODES, draw_request};
use hs_base::{AutoRule, List, Memory, Settings, TriggerId, TriggerRule};
use hs_records::{Op, Workload};
use rand_core::SeedableRng;
use rand_xoshiro::Xoshiro256PlusPlus;
use std::alloc::Global;

/// The clients of all nodes.
const ALL_CLIENTS: usize = MADE_NODES as usize * MADE_CLIENTS as usize;

/// The trigger ids that failures and long latencies fire.
const FAILURE: TriggerId = TriggerId(1);

const LATENCY: TriggerId = TriggerId(2);

/// The trigger ids of a made workload.
fn made_triggers(alloc: Global) -> Result<List<TriggerRule>, Memory>
    ensures { IfOk result (λ rules. rules.items ≡ made_settings.triggers) }
{
    let mut rules = List::with_room(alloc, 2)?;
    rules.push(TriggerRule {
        id: FAILURE,
        weight: 2,
        burst: 4,
        rate: 10,
    });
    rules.push(TriggerRule {
        id: LATENCY,
        weight: 1,
        burst: 8,
        rate: 100,
    });
    Ok(rules)
}

/// The autotriggers of a made workload: one for failures and one for long latencies.
fn made_autos(alloc: Global) -> Result<List<AutoRule>, Memory>
    ensures { IfOk result (λ rules. rules.items ≡ made_settings.autos) }
{
    let mut rules = List::with_room(alloc, 2)?;
    rules.push(AutoRule::Exception { trigger: FAILURE });
    rules.push(AutoRule::Percentile {
        trigger: LATENCY,
        window: 64,
        share: 9800,
    });
    Ok(rules)
}

/// The settings of a made workload.
fn settings(alloc: Global) -> Result<Settings, Memory>
    ensures { IfOk result (λ settings. settings_of settings ≡ made_settings) }
{
    Ok(Settings {
        nodes: MADE_NODES,
        clients: MADE_CLIENTS,
        buffers: 64,
        size: 256,
        threshold: 48,
        traces: 1000,
        pins: 32,
        stride: 8,
        triggers: made_triggers(alloc)?,
        autos: made_autos(alloc)?,
    })
}

/// Clients without operations.
fn idle_clients(alloc: Global) -> Result<Vec<List<Op>>, Memory>
    ensures len { IfOk result (λ clients. vec_len clients ≡ 12) }
    ensures idle { IfOk result (λ clients. map operations_of clients.items ≡ each_below 12 (λ _. [])) }
{
    let mut clients = Vec::with_capacity(alloc, ALL_CLIENTS)?;
    'idle: for _ in 0..ALL_CLIENTS {
        clients.push(List::new(alloc))?;
    }
    Ok(clients)
}

/// The workload of so many requests that this seed makes (`docs/FORMATS.md`, "The made workload"). The one
/// error is want of memory.
pub fn make_workload(alloc: Global, seed: u64, size: u32) -> Result<Workload, Memory>
    requires least { 1 ≤ size }
    requires most { size ≤ MAX_REQUESTS }
    ensures made { IfOk result (λ workload. workload_of workload ≡ made_workload seed size) }
    ensures valid { IfOk result (λ workload. IsValid (workload_of workload)) }
{
    let mut generator = Xoshiro256PlusPlus::seed_from_u64(seed);
    let mut clients = idle_clients(alloc)?;
    for request in 0..size {
        draw_request(alloc, &mut generator, request, &mut clients)?;
    }
    Ok(Workload {
        version: 1,
        settings: settings(alloc)?,
        clients: List::from_vec(clients),
    })
}
