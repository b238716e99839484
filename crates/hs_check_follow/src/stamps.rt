//! The second clause: stamps number the events of each node.

ghost use Rattle.std.specs.Prelude.{◌≡◌, ◌++◌, IfOk, OnOk};
ghost use Rattle.std.specs.List.{list_all};
ghost use Rattle.hs_records.specs.Journals.{journal_of};
ghost use Rattle.hs_law_journal.specs.Following.{log_at};
ghost use Rattle.hs_law_journal.specs.Played.{played};
ghost use Rattle.hs_law_journal.specs.Shape.{has_stamps, node_has_stamps, node_stamps, node_draws, draw_stamps, log_stamps, are_numbered, rise};
ghost use Rattle.hs_client.specs.Sending.{draws_at};
ghost use Rattle.hs_records.specs.Views.{workload_of};

use crate::counting::{draws_of, log_of};
use crate::rising::{draws_rise, log_rises, stamp_of, step_stamp};
use hs_base::Memory;
use hs_records::{Draw, Journal, Step, Workload};
use std::alloc::Global;

/// Whether the stamps of each node number what happens at its pool from 0 on, each once, and rise within a client
/// and within a log.
pub fn has_stamps(alloc: Global, workload: &Workload, journal: &Journal) -> Result<bool, Memory>
    ensures { IfOk result (λ yes. yes ≡ has_stamps (played (workload_of workload.now) (journal_of journal.now))) }
{
    for node in 0..workload.settings.nodes {
        if !node_has_stamps(alloc, workload, journal, node)? {
            return Ok(false);
        }
    }
    Ok(true)
}

/// Whether the stamps of one node number what happens at its pool from 0 on, each once, and rise within a client and within a
/// log.
fn node_has_stamps(
    alloc: Global,
    workload: &Workload,
    journal: &Journal,
    node: u16,
) -> Result<bool, Memory>
    ensures { IfOk result (λ yes. yes ≡ node_has_stamps (workload_of workload.now) (journal_of journal.now) node) }
{
    let stamps = stamps_of(alloc, workload, journal, node)?;
    if !are_numbered(alloc, stamps.as_slice())? {
        return Ok(false);
    }
    let rise = clients_rise(workload, journal, node) && log_rises(log_of(journal, node as usize));
    Ok(rise)
}

/// Whether the draws of each client of a node have rising stamps.
fn clients_rise(workload: &Workload, journal: &Journal, node: u16) -> bool
    ensures { result ≡ list_all (λ draws. rise (draw_stamps draws)) (node_draws (workload_of workload.now) (journal_of journal.now) node) }
{
    for number in 0..workload.settings.clients {
        if !draws_rise(draws_of(journal, workload.settings.clients, node, number)) {
            return false;
        }
    }
    true
}

/// All stamps of a node.
fn stamps_of(
    alloc: Global,
    workload: &Workload,
    journal: &Journal,
    node: u16,
) -> Result<Vec<u64>, Memory>
    ensures { IfOk result (λ stamps. stamps.items ≡ node_stamps (workload_of workload.now) (journal_of journal.now) node) }
{
    let mut stamps = Vec::new(alloc);
    for number in 0..workload.settings.clients {
        push_draws(
            &mut stamps,
            draws_of(journal, workload.settings.clients, node, number),
        )?;
    }
    push_log(&mut stamps, log_of(journal, node as usize))?;
    Ok(stamps)
}

/// Appends the stamps of these draws.
fn push_draws(stamps: &mut Vec<u64>, draws: &[Draw]) -> Result<(), Memory>
    ensures { OnOk result (stamps.new.items ≡ stamps.old.items ++ draw_stamps draws.now) }
{
    for draw in draws {
        stamps.push(stamp_of(*draw))?;
    }
    Ok(())
}

/// Appends the stamps of the offers among these steps.
fn push_log(stamps: &mut Vec<u64>, log: &[Step]) -> Result<(), Memory>
    ensures { OnOk result (stamps.new.items ≡ stamps.old.items ++ log_stamps log.now) }
{
    for step in log {
        if let Some(stamp) = step_stamp(*step) {
            stamps.push(stamp)?;
        }
    }
    Ok(())
}

/// Whether these are as many numbers from 0 on, each once.
fn are_numbered(alloc: Global, stamps: &[u64]) -> Result<bool, Memory>
    ensures { IfOk result (λ yes. yes ≡ are_numbered stamps.now) }
{
    let mut seen = vec![in alloc; false; stamps.len()]?;
    for stamp in stamps {
        let place = *stamp as usize;
        if place >= seen.len() {
            return Ok(false);
        }
        if seen[place] {
            return Ok(false);
        }
        seen[place] = true;
    }
    Ok(true)
}
