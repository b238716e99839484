//! The workload that a command is about, and what it answers for it.

ghost use Rattle.std.specs.Prelude.{◌≡◌, ◌≤◌, ◌⊎◌, ◌++◌, [], true, false, IfOk, length};
ghost use Rattle.hs_base.specs.declared.limits.TheConstants.{MAX_INPUT};
ghost use Rattle.hs_records.specs.Validity.{IsValid};
ghost use Rattle.hs_records.specs.Views.{workload_of};
ghost use Rattle.hs_cli.specs.Commands.{IsSized, is_watched, only_looks};
ghost use Rattle.hs_cli.specs.Endings.{Due, IsReader, IsUntouched, drill_text, workload_in, journal_in};
ghost use Rattle.hs_cli.specs.declared.command.Command.TheVariants.{Replay, Run, Convert};
ghost use Rattle.hs_cli.specs.Answers.{IsSubject, IsFoundIn, IsAnswer};
ghost use Rattle.hs_workload.specs.declared.status.Status.TheVariants.{Done};

use crate::checking::judge;
use crate::command::Command;
use crate::comparing::comparison;
use hs_base::{Bytes, Gate, Memory, Source};
use hs_check::split_input;
use hs_json::{Parts, outcome_parts};
use hs_law_run::lockstep_laws::schedule_is_lawful;
use hs_make::make_workload;
use hs_records::Workload;
use hs_replay::{into_outcome, replay};
use hs_report::{Form, write_total};
use hs_run::run;
use hs_workload::{
    ReadError, ReadInput, Status, read_all, read_workload, refusal_line, versions_are_exchanged,
    write_workload,
};
use std::alloc::Global;
use std::marker::Sync;
use std::thread::Threads;

/// What a command is about, or why there is nothing.
#[derive(Drop)]
pub(crate) enum Subject {
    /// This workload, which it read or made, and of what `check` reads the text of a journal.
    Found(Workload, Vec<u8>),
    /// The input is no workload, and this says why.
    Refused(Vec<u8>),
    /// The input has one byte more than an input may have.
    TooLong,
    /// The source failed.
    Fault,
    /// There was no memory.
    NoMemory,
}

/// What a command answers: its status, and its text in two parts, one behind the other.
#[derive(Drop)]
pub(crate) struct Answer {
    pub(crate) status: Status,
    pub(crate) front: Bytes,
    pub(crate) text: Bytes,
}

/// What a command is about: what it makes, or what its source has.
pub(crate) fn subject_of<S: Source>(alloc: Global, command: Command, source: &mut S) -> Subject
    requires { IsSized command }
    ensures subject { IsSubject command (S.left source.old) (S.left source.new) (S.faults source.old) (S.faults source.new) result }
    ensures untouched { IsReader command ⊎ IsUntouched (S.left source.old) (S.left source.new) (S.faults source.old) (S.faults source.new) }
{
    match command {
        Command::Make { seed, size } | Command::Drill { seed, size } => {
            match make_workload(alloc, seed, size) {
                Ok(workload) => Subject::Found(workload, Vec::new(alloc)),
                Err(_) => Subject::NoMemory,
            }
        }
        Command::Replay { form: _ }
        | Command::Run { form: _ }
        | Command::Watch
        | Command::Check
        | Command::Convert
        | Command::Compare { one_in: _, room: _ } => read(alloc, command, source),
    }
}

/// Reads the whole source, and finds in it what the command is about.
fn read<S: Source>(alloc: Global, command: Command, source: &mut S) -> Subject
    requires { IsReader command }
    ensures { IsSubject command (S.left source.old) (S.left source.new) (S.faults source.old) (S.faults source.new) result }
{
    match read_all(alloc, source) {
        ReadInput::Whole(input) => found_in(alloc, command, &input),
        ReadInput::TooLong => Subject::TooLong,
        ReadInput::Fault => Subject::Fault,
        ReadInput::NoMemory => Subject::NoMemory,
    }
}

/// The parts of an input that a command looks at: a workload, and of what `check` reads a journal.
fn parts_of(command: Command, input: &[u8]) -> (&[u8], &[u8])
    ensures workload { result.0.now ≡ workload_in command input.now }
    ensures journal { result.1.now ≡ journal_in command input.now }
    ensures within { length result.1.now ≤ length input.now }
{
    match command {
        Command::Check => {
            let split = split_input(input);
            let behind = &input[split.workload..];
            (&input[..split.workload], &behind[..split.journal])
        }
        _ => (input, &[]),
    }
}

/// What an input has that was read whole.
fn found_in(alloc: Global, command: Command, input: &[u8]) -> Subject
    requires { length input.now ≤ MAX_INPUT }
    ensures { IsFoundIn command input.now result }
{
    let (front, behind) = parts_of(command, input);
    match read_workload(alloc, front) {
        Ok(workload) => match behind.to_vec(alloc) {
            Ok(journal) => Subject::Found(workload, journal),
            Err(_) => Subject::NoMemory,
        },
        Err(ReadError::Refused(refusal)) => match refusal_line(alloc, refusal) {
            Ok(line) => Subject::Refused(line),
            Err(_) => Subject::NoMemory,
        },
        Err(ReadError::Memory) => Subject::NoMemory,
    }
}

/// An answer with its text in one part.
pub(crate) fn whole(alloc: Global, status: Status, text: Bytes) -> Answer
    ensures status { result.status ≡ status }
    ensures text { result.front.items ++ result.text.items ≡ text.items }
{
    Answer {
        status,
        front: Bytes::new(alloc),
        text,
    }
}

/// The command is done, and this is its output.
fn done(alloc: Global, text: Bytes) -> Answer
    ensures status { result.status ≡ Done }
    ensures text { result.front.items ++ result.text.items ≡ text.items }
{
    whole(alloc, Status::Done, text)
}

/// The command is done, and its output is that of an outcome.
pub(crate) fn done_with(parts: Parts) -> Answer
    ensures status { result.status ≡ Done }
    ensures text { result.front.items ++ result.text.items ≡ parts.journal.items ++ parts.behind.items }
{
    let Parts { journal, behind } = parts;
    Answer {
        status: Status::Done,
        front: journal,
        text: behind,
    }
}

/// What `replay` prints of a workload, which is let go before its outcome is made.
fn replayed(alloc: Global, workload: Workload, form: Form) -> Result<Parts, Memory>
    requires { IsValid (workload_of workload) }
    ensures { IfOk result (λ parts. Due (Replay form) (workload_of workload) [] (parts.journal.items ++ parts.behind.items)) }
{
    schedule_is_lawful();
    let outcome = into_outcome(alloc, workload)?;
    outcome_parts(alloc, outcome, form)
}

/// What `run` prints of a workload, which is let go before its outcome is written.
fn ran<R: Threads + Sync, G: Gate>(
    rt: &R,
    alloc: Global,
    gate: &G,
    workload: Workload,
    form: Form,
) -> Result<Parts, Memory>
    requires { IsValid (workload_of workload) }
    ensures { IfOk result (λ parts. Due (Run form) (workload_of workload) [] (parts.journal.items ++ parts.behind.items)) }
{
    let outcome = run(rt, alloc, &workload, gate)?;
    drop(workload);
    outcome_parts(alloc, outcome, form)
}

/// What `convert` prints of a workload.
fn converted(alloc: Global, workload: Workload) -> Result<Bytes, Memory>
    requires { IsValid (workload_of workload) }
    ensures { IfOk result (λ text. Due Convert (workload_of workload) [] text.items) }
{
    versions_are_exchanged();
    let widened = Workload {
        version: 2,
        settings: workload.settings,
        clients: workload.clients,
    };
    write_workload(alloc, &widened)
}

/// What `drill` prints of the workload that it makes.
fn drilled(alloc: Global, workload: &Workload) -> Result<Bytes, Memory>
    requires { IsValid (workload_of workload.now) }
    ensures { IfOk result (λ text. text.items ≡ drill_text (workload_of workload.now)) }
{
    let outcome = replay(alloc, workload)?;
    write_total(alloc, &outcome)
}

/// What a command answers that only looks at its workload. `check` looks at the text of a journal too.
fn looked_up(
    alloc: Global,
    command: Command,
    workload: &Workload,
    journal: &[u8],
) -> Result<Answer, Memory>
    requires sized { IsSized command }
    requires looks { only_looks command ≡ true }
    requires valid { IsValid (workload_of workload.now) }
    requires short { length journal.now ≤ MAX_INPUT }
    ensures { IfOk result (λ answer. IsAnswer command (workload_of workload.now) journal.now answer.status (answer.front.items ++ answer.text.items)) }
{
    match command {
        Command::Check => judge(alloc, workload, journal),
        Command::Make { seed: _, size: _ } => Ok(done(alloc, write_workload(alloc, workload)?)),
        Command::Drill { seed: _, size: _ } => Ok(done(alloc, drilled(alloc, workload)?)),
        Command::Compare { one_in, room } => {
            Ok(done(alloc, comparison(alloc, workload, one_in, room)?))
        }
        Command::Replay { form: _ }
        | Command::Run { form: _ }
        | Command::Watch
        | Command::Convert => { unreachable!() }
    }
}

/// What a command without watchers answers for a workload, and `check` for a workload and the text of a journal. Each actor of a
/// run passes the gate before each of its steps.
pub(crate) fn answer_for<R: Threads + Sync, G: Gate>(
    rt: &R,
    alloc: Global,
    gate: &G,
    command: Command,
    workload: Workload,
    journal: &[u8],
) -> Result<Answer, Memory>
    requires sized { IsSized command }
    requires unwatched { is_watched command ≡ false }
    requires valid { IsValid (workload_of workload) }
    requires short { length journal.now ≤ MAX_INPUT }
    ensures { IfOk result (λ answer. IsAnswer command (workload_of workload) journal.now answer.status (answer.front.items ++ answer.text.items)) }
{
    match command {
        Command::Replay { form } => Ok(done_with(replayed(alloc, workload, form)?)),
        Command::Run { form } => Ok(done_with(ran(rt, alloc, gate, workload, form)?)),
        Command::Convert => Ok(done(alloc, converted(alloc, workload)?)),
        Command::Watch => unreachable!(),
        Command::Check
        | Command::Make { seed: _, size: _ }
        | Command::Drill { seed: _, size: _ }
        | Command::Compare { one_in: _, room: _ } => looked_up(alloc, command, &workload, journal),
    }
}
