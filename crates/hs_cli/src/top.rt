//! The top call.

ghost use Rattle.std.specs.Prelude.{◌≡◌, ◌<◌, ◌⊎◌, ℕ, List, map, string_bytes, Some, None};
ghost use Rattle.hs_base.specs.Outside.{Rose};
ghost use Rattle.hs_records.specs.Plain.{PlainWorkload};
ghost use Rattle.hs_cli.specs.Commands.{command_in};
ghost use Rattle.hs_cli.specs.declared.command.Command.{Command};
ghost use Rattle.hs_workload.specs.Input.{ReadFront};
ghost use Rattle.hs_cli.specs.Endings.{Wrote, WroteFront, IsUntouched, Reading, WillBeAbout, ComesTo};

use crate::command::asks_to_watch;
use crate::unwatched::hindsight_unwatched;
use crate::watching::watch;
use hs_base::{Gate, Sink, Source};
use hs_journal::laws::texts_have_one_journal;
use hs_workload::{Status, one_workload_a_text};
use std::alloc::Global;
use std::marker::Sync;
use std::sync::Wait;
use std::thread::Threads;

/// Runs the command that the words name: reads its input from the source and writes its output to
/// the sink (`docs/FORMATS.md`, "The program"). `words` has no name of a program. Each actor of `run` passes the gate before
/// each of its steps, by its number and the step's (`docs/RULES.md`, "The run"), under `--watch` too, where those that publish
/// and look pass none; no other command looks at it. Only `run --watch` may wait: who publishes lets looks come to their end.
pub fn hindsight<R: Threads + Wait + Sync, S: Source, K: Sink, G: Gate>(
    rt: &R,
    alloc: Global,
    words: &[String],
    source: &mut S,
    sink: &mut K,
    gate: &G,
) -> Status
    // The words are a command, and the sink gained the text that it owes. If the command reads, the input was read whole.
    // Of an input that reads as one workload: `replay` owes the outcome of that workload and the lockstep journal, which is lawful
    // for it; `run` the outcome of that workload and some journal that is lawful for it; `convert` the workload's text; and
    // `compare` what four samplers keep of it, with Hindsight's line from the lockstep outcome.
    // Of an input with one workload, and behind it one journal that is lawful for it: `check` owes the outcome of the two.
    // `run --watch` owes what `run` owes, and after it what each of two watchers saw: the totals after some of that run's rounds, of
    // more rounds each time, and at last those after all.
    // Of the workload that it makes, with nothing read: `make` owes its text, and `drill` the total line.
    ensures done { result ≡ Status.Done
        → Wrote (command_in (map (λ word. string_bytes word) words.now)) (S.left source.old) (S.left source.new)
        (K.written sink.old) (K.written sink.new) Status.Done }

    // The words are no command. Nothing was read, and the sink gained the usage line.
    ensures usage { result ≡ Status.Usage
        → Wrote (command_in (map (λ word. string_bytes word) words.now)) (S.left source.old) (S.left source.new)
        (K.written sink.old) (K.written sink.new) Status.Usage }

    ensures no_command { command_in (map (λ word. string_bytes word) words.now) ≡ None
        → (result ≡ Status.Usage) ⊎ ((result ≡ Status.WriteFault) ⊎ (result ≡ Status.Memory)) }

    // The input was read whole and is no workload, and the sink gained its first bad line and reason. For `check` this is said of
    // the part that is to be a workload; or that part reads as one, and the part behind it is no journal, whose first bad line
    // and reason the sink gained.
    ensures refused { result ≡ Status.Refused
        → Wrote (command_in (map (λ word. string_bytes word) words.now)) (S.left source.old) (S.left source.new)
        (K.written sink.old) (K.written sink.new) Status.Refused }

    // The words are `check`, the input was read whole, and its parts read as one workload and one journal, which is not lawful for
    // it. The sink gained the first clause that fails.
    ensures unlawful { result ≡ Status.Unlawful
        → Wrote (command_in (map (λ word. string_bytes word) words.now)) (S.left source.old) (S.left source.new)
        (K.written sink.old) (K.written sink.new) Status.Unlawful }

    // The source gave one byte more than an input may have, and the sink gained the text that says so.
    ensures too_long { result ≡ Status.TooLong
        → Wrote (command_in (map (λ word. string_bytes word) words.now)) (S.left source.old) (S.left source.new)
        (K.written sink.old) (K.written sink.new) Status.TooLong }

    // Where the source failed in this call, it ends so.
    ensures source_failed { S.faults source.old < S.faults source.new → result ≡ Status.ReadFault }

    // The words are a command that reads, the source failed in this call, and nothing was written.
    ensures read_fault { result ≡ Status.ReadFault
        → Reading (command_in (map (λ word. string_bytes word) words.now)) × Rose (S.faults source.old) (S.faults source.new) }
    ensures read_fault_writes { result ≡ Status.ReadFault → K.written sink.new ≡ K.written sink.old }

    // And before it failed the source had given no more than an input may have: where it gave more, that is what is told.
    ensures read_fault_reads { result ≡ Status.ReadFault
        → (input : List ℕ) × ReadFront (S.left source.old) (S.left source.new) input }

    // Where the sink failed in this call, it ends so, whatever status was due.
    ensures sink_failed { K.faults sink.old < K.faults sink.new → result ≡ Status.WriteFault }

    // The sink failed in this call, and gained a front of the text that was due.
    ensures write_fault { result ≡ Status.WriteFault → Rose (K.faults sink.old) (K.faults sink.new) }
    ensures write_fault_writes { result ≡ Status.WriteFault
        → WroteFront (command_in (map (λ word. string_bytes word) words.now)) (S.left source.old) (S.left source.new)
        (K.written sink.old) (K.written sink.new) }

    // Want of memory comes with any words, and then nothing was written.
    ensures memory_writes { result ≡ Status.Memory → K.written sink.new ≡ K.written sink.old }

    // The words are a command that reads, or the source was left alone.
    ensures untouched { Reading (command_in (map (λ word. string_bytes word) words.now))
        ⊎ IsUntouched (S.left source.old) (S.left source.new) (S.faults source.old) (S.faults source.new) }

    // A command over any valid workload, which it makes or reads whole from a short enough input, is done where nothing
    // fails, unless memory runs out. `check` is done where the journal behind the workload is lawful for it; where it is not, or
    // where no journal is, it has the status that says so.
    ensures complete { (command : Command) (W : PlainWorkload) (journal : List ℕ) (status : Status)
        → command_in (map (λ word. string_bytes word) words.now) ≡ Some command
        → WillBeAbout command (S.left source.old) W journal
        → ComesTo command W journal status
        → ¬ Rose (S.faults source.old) (S.faults source.new)
        → ¬ Rose (K.faults sink.old) (K.faults sink.new)
        → (result ≡ status) ⊎ (result ≡ Status.Memory) }
{
    one_workload_a_text();
    texts_have_one_journal();
    match asks_to_watch(alloc, words) {
        Ok(true) => watch(rt, alloc, source, sink, gate),
        Ok(false) => hindsight_unwatched(rt, alloc, words, source, sink, gate),
        Err(_) => Status::Memory,
    }
}
