//! What is written of an input that is not worked on.

ghost use Rattle.std.specs.Prelude.{◌≡◌, ◌⊎◌, IfOk};
ghost use Rattle.hs_base.specs.Outside.{Rose, Gains};
ghost use Rattle.hs_workload.specs.Refusals.{refusal_text, too_long_text};
ghost use Rattle.hs_workload.specs.Written.{GainsFront};

use crate::refusal::Refusal;
use crate::status::Status;
use crate::writing::finish;
use hs_base::{Memory, Sink};
use std::alloc::Global;

/// What is written of an input that is too long.
const TOO_LONG: &[u8] = b"refused input longer than 16777216 bytes\n";

/// The text that names a bad line and its reason.
pub fn refusal_line(alloc: Global, refusal: Refusal) -> Result<Vec<u8>, Memory>
    ensures { IfOk result (λ line. line.items ≡ refusal_text refusal.line refusal.reason) }
{
    let line = refusal.line;
    let reason = refusal.reason.word();
    Ok(format!(in alloc; "refused line {line} {reason}\n")?.into_bytes())
}

/// Writes that the input is too long, and answers `TooLong`, or `WriteFault`.
pub fn refuse_too_long<K: Sink>(sink: &mut K) -> Status
    ensures { (result ≡ Status.TooLong × (K.faults sink.new ≡ K.faults sink.old) × Gains (K.written sink.old) (K.written sink.new) too_long_text)
        ⊎ (result ≡ Status.WriteFault × Rose (K.faults sink.old) (K.faults sink.new) × GainsFront (K.written sink.old) (K.written sink.new) too_long_text) }
{
    finish(sink, TOO_LONG, Status::TooLong)
}
