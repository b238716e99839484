//! The top call for all words but `run --watch`.

ghost use Rattle.std.specs.Prelude.{◌≡◌, ◌<◌, ◌⊎◌, ℕ, false, List, map, string_bytes, Some, None};
ghost use Rattle.hs_base.specs.Outside.{Rose};
ghost use Rattle.hs_records.specs.Plain.{PlainWorkload};
ghost use Rattle.hs_cli.specs.Commands.{unwatched_in, is_watched, IsSized};
ghost use Rattle.hs_workload.specs.Input.{ReadFront};
ghost use Rattle.hs_cli.specs.Endings.{Ends, EndsWith, Wrote, WroteFront, IsReader, IsUntouched, Reading, WillBeAbout, ComesTo};

use crate::answer::{Subject, answer_for, subject_of};
use crate::command::{Command, unwatched_in};
use hs_base::{Gate, Sink, Source};
use hs_journal::laws::texts_have_one_journal;
use hs_workload::{Status, finish, finish_both, one_workload_a_text, refuse_too_long};
use std::alloc::Global;
use std::marker::Sync;
use std::thread::Threads;

/// What is written where the words are no command.
const USAGE: &[u8] =
    b"usage: hindsight replay [--json] | run [--json] | run --watch | make SEED SIZE | drill SEED SIZE | convert | check | compare H B\n";

/// Does what a command without watchers says.
fn carry_out<R: Threads + Sync, S: Source, K: Sink, G: Gate>(
    rt: &R,
    alloc: Global,
    command: Command,
    source: &mut S,
    sink: &mut K,
    gate: &G,
) -> Status
    requires sized { IsSized command }
    requires unwatched { is_watched command ≡ false }
    ensures ends { EndsWith command (S.left source.old) (S.left source.new) (K.written sink.old) (K.written sink.new)
        (S.faults source.old) (S.faults source.new) (K.faults sink.old) (K.faults sink.new) result }
    ensures untouched { IsReader command ⊎ IsUntouched (S.left source.old) (S.left source.new) (S.faults source.old) (S.faults source.new) }
{
    match subject_of(alloc, command, source) {
        Subject::Found(workload, journal) => {
            match answer_for(rt, alloc, gate, command, workload, &journal) {
                Ok(answer) => {
                    let front = answer.front.as_slice();
                    finish_both(sink, front, answer.text.as_slice(), answer.status)
                }
                Err(_) => Status::Memory,
            }
        }
        Subject::Refused(text) => finish(sink, &text, Status::Refused),
        Subject::TooLong => refuse_too_long(sink),
        Subject::Fault => Status::ReadFault,
        Subject::NoMemory => Status::Memory,
    }
}

/// What the call does, with its answer as one fact.
fn call<R: Threads + Sync, S: Source, K: Sink, G: Gate>(
    rt: &R,
    alloc: Global,
    words: &[String],
    source: &mut S,
    sink: &mut K,
    gate: &G,
) -> Status
    ensures ends { Ends (unwatched_in (map (λ word. string_bytes word) words.now)) (S.left source.old) (S.left source.new) (K.written sink.old) (K.written sink.new)
        (S.faults source.old) (S.faults source.new) (K.faults sink.old) (K.faults sink.new) result }
    ensures untouched { Reading (unwatched_in (map (λ word. string_bytes word) words.now)) ⊎ IsUntouched (S.left source.old) (S.left source.new) (S.faults source.old) (S.faults source.new) }
{
    match unwatched_in(alloc, words) {
        Ok(Some(command)) => carry_out(rt, alloc, command, source, sink, gate),
        Ok(None) => finish(sink, USAGE, Status::Usage),
        Err(_) => Status::Memory,
    }
}

/// What `hindsight` does, for all words but `run --watch`: for this call these are no command. It needs no leave to wait: each of
/// its actors returns, and so does it.
pub fn hindsight_unwatched<R: Threads + Sync, S: Source, K: Sink, G: Gate>(
    rt: &R,
    alloc: Global,
    words: &[String],
    source: &mut S,
    sink: &mut K,
    gate: &G,
) -> Status
    // The words are a command, and the sink gained the text that it owes. If the command reads, the input was read whole.
    // Of an input that reads as one workload: `replay` owes the outcome of that workload and the lockstep journal, which is lawful
    // for it; `run` the outcome of that workload and some journal that is lawful for it; `convert` the workload's text; and
    // `compare` what four samplers keep of it, with Hindsight's line from the lockstep outcome.
    // Of an input with one workload, and behind it one journal that is lawful for it: `check` owes the outcome of the two.
    // Of the workload that it makes, with nothing read: `make` owes its text, and `drill` the total line.
    ensures done { result ≡ Status.Done
        → Wrote (unwatched_in (map (λ word. string_bytes word) words.now)) (S.left source.old) (S.left source.new)
        (K.written sink.old) (K.written sink.new) Status.Done }

    // The words are no command. Nothing was read, and the sink gained the usage line.
    ensures usage { result ≡ Status.Usage
        → Wrote (unwatched_in (map (λ word. string_bytes word) words.now)) (S.left source.old) (S.left source.new)
        (K.written sink.old) (K.written sink.new) Status.Usage }

    ensures no_command { unwatched_in (map (λ word. string_bytes word) words.now) ≡ None
        → (result ≡ Status.Usage) ⊎ ((result ≡ Status.WriteFault) ⊎ (result ≡ Status.Memory)) }

    // The input was read whole and is no workload, and the sink gained its first bad line and reason. For `check` this is said of
    // the part that is to be a workload; or that part reads as one, and the part behind it is no journal, whose first bad line
    // and reason the sink gained.
    ensures refused { result ≡ Status.Refused
        → Wrote (unwatched_in (map (λ word. string_bytes word) words.now)) (S.left source.old) (S.left source.new)
        (K.written sink.old) (K.written sink.new) Status.Refused }

    // The words are `check`, the input was read whole, and its parts read as one workload and one journal, which is not lawful for
    // it. The sink gained the first clause that fails.
    ensures unlawful { result ≡ Status.Unlawful
        → Wrote (unwatched_in (map (λ word. string_bytes word) words.now)) (S.left source.old) (S.left source.new)
        (K.written sink.old) (K.written sink.new) Status.Unlawful }

    // The source gave one byte more than an input may have, and the sink gained the text that says so.
    ensures too_long { result ≡ Status.TooLong
        → Wrote (unwatched_in (map (λ word. string_bytes word) words.now)) (S.left source.old) (S.left source.new)
        (K.written sink.old) (K.written sink.new) Status.TooLong }

    // Where the source failed in this call, it ends so.
    ensures source_failed { S.faults source.old < S.faults source.new → result ≡ Status.ReadFault }

    // The words are a command that reads, the source failed in this call, and nothing was written.
    ensures read_fault { result ≡ Status.ReadFault
        → Reading (unwatched_in (map (λ word. string_bytes word) words.now)) × Rose (S.faults source.old) (S.faults source.new) }
    ensures read_fault_writes { result ≡ Status.ReadFault → K.written sink.new ≡ K.written sink.old }

    // And before it failed the source had given no more than an input may have: where it gave more, that is what is told.
    ensures read_fault_reads { result ≡ Status.ReadFault
        → (input : List ℕ) × ReadFront (S.left source.old) (S.left source.new) input }

    // Where the sink failed in this call, it ends so, whatever status was due.
    ensures sink_failed { K.faults sink.old < K.faults sink.new → result ≡ Status.WriteFault }

    // The sink failed in this call, and gained a front of the text that was due.
    ensures write_fault { result ≡ Status.WriteFault → Rose (K.faults sink.old) (K.faults sink.new) }
    ensures write_fault_writes { result ≡ Status.WriteFault
        → WroteFront (unwatched_in (map (λ word. string_bytes word) words.now)) (S.left source.old) (S.left source.new)
        (K.written sink.old) (K.written sink.new) }

    // Want of memory comes with any words, and then nothing was written.
    ensures memory_writes { result ≡ Status.Memory → K.written sink.new ≡ K.written sink.old }

    // The words are a command that reads, or the source was left alone.
    ensures untouched { Reading (unwatched_in (map (λ word. string_bytes word) words.now))
        ⊎ IsUntouched (S.left source.old) (S.left source.new) (S.faults source.old) (S.faults source.new) }

    // A command over any valid workload, which it makes or reads whole from a short enough input, is done where nothing
    // fails, unless memory runs out. `check` is done where the journal behind the workload is lawful for it; where it is not, or
    // where no journal is, it has the status that says so.
    ensures complete { (command : Command) (W : PlainWorkload) (journal : List ℕ) (status : Status)
        → unwatched_in (map (λ word. string_bytes word) words.now) ≡ Some command
        → WillBeAbout command (S.left source.old) W journal
        → ComesTo command W journal status
        → ¬ Rose (S.faults source.old) (S.faults source.new)
        → ¬ Rose (K.faults sink.old) (K.faults sink.new)
        → (result ≡ status) ⊎ (result ≡ Status.Memory) }
{
    one_workload_a_text();
    texts_have_one_journal();
    call(rt, alloc, words, source, sink, gate)
}
