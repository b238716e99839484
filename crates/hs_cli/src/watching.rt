//! What `run --watch` does.

ghost use Rattle.std.specs.Prelude.{◌≡◌, ◌++◌, [], map, IfOk};
ghost use Rattle.hs_records.specs.Journals.{PlainJournal};
ghost use Rattle.hs_records.specs.Plain.{PlainWorkload};
ghost use Rattle.hs_records.specs.Validity.{IsValid};
ghost use Rattle.hs_records.specs.Views.{workload_of};
ghost use Rattle.hs_law_journal.specs.Lawful.{IsLawful};
ghost use Rattle.hs_outcome.specs.Outcomes.{IsOutcome};
ghost use Rattle.hs_report.specs.OutcomeText.{outcome_text};
ghost use Rattle.hs_report.specs.declared.form.Form.TheVariants.{Text as Lines};
ghost use Rattle.hs_run.specs.Ended.{items_of};
ghost use Rattle.hs_board.specs.WatchText.{watch_text};
ghost use Rattle.hs_cli.specs.Endings.{Due, EndsWith};
ghost use Rattle.hs_cli.specs.declared.command.Command.TheVariants.{Watch};

use crate::answer::{Subject, subject_of};
use crate::command::Command;
use hs_base::{Bytes, Gate, List, Memory, Sink, Source};
use hs_board::{Progress, write_watched};
use hs_json::write_outcome;
use hs_records::Workload;
use hs_report::Form;
use hs_run::{Watched, run_watched};
use hs_workload::{Status, finish, refuse_too_long};
use std::alloc::Global;
use std::marker::Sync;
use std::sync::Wait;
use std::thread::Threads;

/// Runs the workload that the source has, and writes what is owed of the run and of its watchers.
pub(crate) fn watch<R: Threads + Wait + Sync, S: Source, K: Sink, G: Gate>(
    rt: &R,
    alloc: Global,
    source: &mut S,
    sink: &mut K,
    gate: &G,
) -> Status
    ensures { EndsWith Watch (S.left source.old) (S.left source.new) (K.written sink.old) (K.written sink.new)
        (S.faults source.old) (S.faults source.new) (K.faults sink.old) (K.faults sink.new) result }
{
    match subject_of(alloc, Command::Watch, source) {
        Subject::Found(workload, _) => match answer_watched(rt, alloc, gate, &workload) {
            Ok(text) => finish(sink, text.as_slice(), Status::Done),
            Err(_) => Status::Memory,
        },
        Subject::Refused(text) => finish(sink, &text, Status::Refused),
        Subject::TooLong => refuse_too_long(sink),
        Subject::Fault => Status::ReadFault,
        Subject::NoMemory => Status::Memory,
    }
}

/// What `run --watch` answers for a workload: the outcome of a run, and behind it what the watchers saw.
fn answer_watched<R: Threads + Wait + Sync, G: Gate>(
    rt: &R,
    alloc: Global,
    gate: &G,
    workload: &Workload,
) -> Result<Bytes, Memory>
    requires { IsValid (workload_of workload.now) }
    ensures { IfOk result (λ text. Due Watch (workload_of workload.now) [] text.items) }
{
    let watched = run_watched(rt, alloc, workload, gate)?;
    watched_text(alloc, &watched)
}

/// The text of a run and of its watchers.
fn watched_text(alloc: Global, watched: &Watched) -> Result<Bytes, Memory>
    requires { (W : PlainWorkload) × (J : PlainJournal) × IsValid W × IsLawful W J × IsOutcome W J watched.now.outcome }
    ensures { IfOk result (λ text. (W : PlainWorkload) (J : PlainJournal) → IsValid W → IsLawful W J → IsOutcome W J watched.now.outcome
        → text.items ≡ outcome_text W J Lines ++ watch_text (items_of watched.now.seen.items)) }
{
    let text = write_outcome(alloc, &watched.outcome, Form::Text)?;
    with_watchers(text, watched.seen.as_slice())
}

/// A text, and behind it what watchers saw.
fn with_watchers(text: Bytes, seen: &[List<Progress>]) -> Result<Bytes, Memory>
    ensures { IfOk result (λ all. all.items ≡ text.items ++ watch_text (map (λ one. one.items) seen.now)) }
{
    let mut all = text.into_vec();
    write_watched(&mut all, seen)?;
    Ok(Bytes::from_vec(all))
}
