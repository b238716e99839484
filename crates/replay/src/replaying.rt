//! From the text of a workload to that of its outcome.

ghost use Rattle.std.specs.Prelude.{◌≡◌, ◌<◌, ◌≤◌, ◌⊎◌, ℕ, List, Some, length, IfOk};
ghost use Rattle.hs_base.specs.Outside.{Rose};
ghost use Rattle.hs_base.specs.declared.limits.TheConstants.{MAX_INPUT};
ghost use Rattle.hs_law_run.specs.Lockstep.{lockstep};
ghost use Rattle.hs_report.specs.OutcomeText.{outcome_text};
ghost use Rattle.hs_report.specs.declared.form.Form.TheVariants.{Text};
ghost use Rattle.hs_records.specs.Plain.{PlainWorkload};
ghost use Rattle.hs_workload.specs.Input.{ReadFront};
ghost use Rattle.hs_records.specs.Validity.{IsValid};
ghost use Rattle.hs_workload.specs.Grammar.{Reads};
ghost use Rattle.hs_records.specs.Views.{workload_of};
ghost use Rattle.replay.specs.Endings.{IsAnswer, Ends, Wrote, WroteFront};

use hs_base::{Bytes, Memory, Sink, Source};
use hs_law_run::lockstep_laws::schedule_is_lawful;
use hs_records::Workload;
use hs_replay::replay;
use hs_report::write_lines;
use hs_workload::{
    ReadError, ReadInput, Status, finish, one_workload_a_text, read_all, read_workload,
    refusal_line, refuse_too_long,
};
use std::alloc::Global;

/// What is answered for an input.
#[derive(Drop)]
struct Answer {
    status: Status,
    text: Bytes,
}

/// The outcome of a workload, as lines.
fn outcome_of(alloc: Global, workload: &Workload) -> Result<Bytes, Memory>
    requires { IsValid (workload_of workload.now) }
    ensures { IfOk result (λ text. text.items ≡ outcome_text (workload_of workload.now) (lockstep (workload_of workload.now)) Text) }
{
    schedule_is_lawful();
    let outcome = replay(alloc, workload)?;
    write_lines(alloc, &outcome)
}

/// What is answered for an input that was read whole.
fn answer_for(alloc: Global, input: &[u8]) -> Result<Answer, Memory>
    ensures { IfOk result (λ answer. IsAnswer input.now answer.status answer.text.items) }
{
    schedule_is_lawful();
    match read_workload(alloc, input) {
        Ok(workload) => Ok(Answer {
            status: Status::Done,
            text: outcome_of(alloc, &workload)?,
        }),
        Err(ReadError::Refused(refusal)) => Ok(Answer {
            status: Status::Refused,
            text: Bytes::from_vec(refusal_line(alloc, refusal)?),
        }),
        Err(ReadError::Memory) => Err(Memory),
    }
}

/// What the call does, with its answer as one fact.
fn call<S: Source, K: Sink>(alloc: Global, source: &mut S, sink: &mut K) -> Status
    ensures { Ends (S.left source.old) (S.left source.new) (K.written sink.old) (K.written sink.new)
        (S.faults source.old) (S.faults source.new) (K.faults sink.old) (K.faults sink.new) result }
{
    match read_all(alloc, source) {
        ReadInput::Whole(input) => match answer_for(alloc, &input) {
            Ok(answer) => finish(sink, answer.text.as_slice(), answer.status),
            Err(_) => Status::Memory,
        },
        ReadInput::TooLong => refuse_too_long(sink),
        ReadInput::Fault => Status::ReadFault,
        ReadInput::NoMemory => Status::Memory,
    }
}

/// Reads a workload to the end of the source, and writes its outcome to the sink. Its clauses say of it what those of the top call
/// of `hs_cli` say of the command `replay`.
pub(crate) fn replay_all<S: Source, K: Sink>(alloc: Global, source: &mut S, sink: &mut K) -> Status
    // The input was read whole and reads as one workload, and the sink gained the outcome of that workload and the lockstep
    // journal, which is lawful for it.
    ensures done { result ≡ Status.Done
        → Wrote (S.left source.old) (S.left source.new) (K.written sink.old) (K.written sink.new) Status.Done }

    // The input was read whole and is no workload, and the sink gained its first bad line and reason.
    ensures refused { result ≡ Status.Refused
        → Wrote (S.left source.old) (S.left source.new) (K.written sink.old) (K.written sink.new) Status.Refused }

    // The source gave one byte more than an input may have, and the sink gained the text that says so.
    ensures too_long { result ≡ Status.TooLong
        → Wrote (S.left source.old) (S.left source.new) (K.written sink.old) (K.written sink.new) Status.TooLong }

    // There are no words and no journal of which it could tell.
    ensures no_usage { ¬ (result ≡ Status.Usage) }
    ensures no_verdict { ¬ (result ≡ Status.Unlawful) }

    // Where the source failed in this call, it ends so.
    ensures source_failed { S.faults source.old < S.faults source.new → result ≡ Status.ReadFault }

    // The source failed in this call, and nothing was written.
    ensures read_fault { result ≡ Status.ReadFault → Rose (S.faults source.old) (S.faults source.new) }
    ensures read_fault_writes { result ≡ Status.ReadFault → K.written sink.new ≡ K.written sink.old }

    // And before it failed the source had given no more than an input may have: where it gave more, that is what is told.
    ensures read_fault_reads { result ≡ Status.ReadFault
        → (input : List ℕ) × ReadFront (S.left source.old) (S.left source.new) input }

    // Where the sink failed in this call, it ends so, whatever status was due.
    ensures sink_failed { K.faults sink.old < K.faults sink.new → result ≡ Status.WriteFault }

    // The sink failed in this call, and gained a front of the text that was due.
    ensures write_fault { result ≡ Status.WriteFault → Rose (K.faults sink.old) (K.faults sink.new) }
    ensures write_fault_writes { result ≡ Status.WriteFault
        → WroteFront (S.left source.old) (S.left source.new) (K.written sink.old) (K.written sink.new) }

    // Want of memory comes with any input, and then nothing was written.
    ensures memory_writes { result ≡ Status.Memory → K.written sink.new ≡ K.written sink.old }

    // A short enough input that reads as a workload is done where nothing fails, unless memory runs out.
    ensures complete { (input : List ℕ) (W : PlainWorkload)
        → S.left source.old ≡ Some input
        → Reads input W
        → length input ≤ MAX_INPUT
        → ¬ Rose (S.faults source.old) (S.faults source.new)
        → ¬ Rose (K.faults sink.old) (K.faults sink.new)
        → (result ≡ Status.Done) ⊎ (result ≡ Status.Memory) }
{
    one_workload_a_text();
    call(alloc, source, sink)
}
