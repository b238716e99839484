//! Writing a text to a sink, whatever parts the sink takes.

ghost use Rattle.std.specs.Prelude.{◌≡◌, ◌⊎◌, ◌++◌, OnOk, OnErr};
ghost use Rattle.hs_base.specs.Outside.{Rose, Gains};
ghost use Rattle.hs_workload.specs.Written.{GainsFront};

use crate::status::Status;
use hs_base::{Failed, Sink};

/// Writes all of the text, and stops at the first write that fails: then a front of it was written.
fn write_all<K: Sink>(sink: &mut K, text: &[u8]) -> Result<(), Failed>
    ensures ok { OnOk result (Gains (K.written sink.old) (K.written sink.new) text.now) }
    ensures front { OnErr result (GainsFront (K.written sink.old) (K.written sink.new) text.now) }
    ensures failed { OnErr result (Rose (K.faults sink.old) (K.faults sink.new)) }
    ensures still { OnOk result (K.faults sink.new ≡ K.faults sink.old) }
{
    let mut done = 0;
    while done < text.len() {
        match sink.write(&text[done..]) {
            Ok(count) => done += count,
            Err(failed) => return Err(failed),
        }
    }
    Ok(())
}

/// Writes a text, and answers the status that goes with it, or `WriteFault`.
pub fn finish<K: Sink>(sink: &mut K, text: &[u8], status: Status) -> Status
    ensures { (result ≡ status × (K.faults sink.new ≡ K.faults sink.old) × Gains (K.written sink.old) (K.written sink.new) text.now)
        ⊎ (result ≡ Status.WriteFault × Rose (K.faults sink.old) (K.faults sink.new) × GainsFront (K.written sink.old) (K.written sink.new) text.now) }
{
    match write_all(sink, text) {
        Ok(()) => status,
        Err(_) => Status::WriteFault,
    }
}

/// Writes a text in two parts, and answers as `finish` does.
pub fn finish_both<K: Sink>(sink: &mut K, front: &[u8], behind: &[u8], status: Status) -> Status
    ensures { (result ≡ status × (K.faults sink.new ≡ K.faults sink.old) × Gains (K.written sink.old) (K.written sink.new) (front.now ++ behind.now))
        ⊎ (result ≡ Status.WriteFault × Rose (K.faults sink.old) (K.faults sink.new) × GainsFront (K.written sink.old) (K.written sink.new) (front.now ++ behind.now)) }
{
    match write_all(sink, front) {
        Ok(()) => finish(sink, behind, status),
        Err(_) => Status::WriteFault,
    }
}
