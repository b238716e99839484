//! The run of a workload.

ghost use Rattle.std.specs.Prelude.{IfOk};
ghost use Rattle.hs_records.specs.Journals.{PlainJournal};
ghost use Rattle.hs_law_journal.specs.Lawful.{IsLawful};
ghost use Rattle.hs_outcome.specs.Outcomes.{AreBooksOf, IsOutcome};
ghost use Rattle.hs_records.specs.Validity.{IsValid};
ghost use Rattle.hs_records.specs.Views.{workload_of};

use crate::finishing::finish;
use crate::making::make_all;
use crate::rounds::make_rounds;
use hs_base::{Gate, Memory};
use hs_outcome::{Books, Outcome, gather};
use hs_records::Workload;
use std::alloc::Global;
use std::marker::Sync;
use std::thread::Threads;

/// Runs a workload: in rounds each client, each agent and the coordinator at once, where threads can be made, and else one
/// after another. Behind the rounds the links are closed, and passes are made on one thread until nothing waits and nothing is
/// pinned. Each actor passes the gate before each of its steps in the rounds; it may wait there for another. Whatever the order
/// in which the actors came, the answer is the outcome of the workload and of a journal that is lawful for it, which tells that
/// order. The one error is want of memory.
pub fn run<R: Threads + Sync, G: Gate>(
    rt: &R,
    alloc: Global,
    workload: &Workload,
    gate: &G,
) -> Result<Outcome, Memory>
    requires { IsValid (workload_of workload.now) }
    ensures { IfOk result (λ outcome. (J : PlainJournal) × IsLawful (workload_of workload.now) J × IsOutcome (workload_of workload.now) J outcome) }
{
    let books = play(rt, alloc, workload, gate)?;
    gather(alloc, books)
}

/// Runs a workload to its end, and answers what all noted.
fn play<R: Threads + Sync, G: Gate>(
    rt: &R,
    alloc: Global,
    workload: &Workload,
    gate: &G,
) -> Result<Books, Memory>
    requires { IsValid (workload_of workload.now) }
    ensures { IfOk result (λ books. (J : PlainJournal) × AreBooksOf (workload_of workload.now) J books) }
{
    let (mut nodes, mut coordinator) = make_all(alloc, workload)?;
    make_rounds(rt, gate, workload, &mut nodes, &mut coordinator)?;
    finish(alloc, workload, nodes, coordinator)
}
