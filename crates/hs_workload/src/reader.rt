//! Reading a workload, a line at a time.

ghost use Rattle.std.specs.Prelude.{◌≡◌, None, IfOk, IfErr, OnOk, MatchResult};
ghost use Rattle.hs_records.specs.Plain.{PlainWorkload};
ghost use Rattle.hs_records.specs.Views.{workload_of};
ghost use Rattle.hs_workload.specs.Grammar.{Reads};
ghost use Rattle.hs_workload.specs.Faults.{first_fault, Refuses};
ghost use Rattle.hs_workload.specs.Forward.{error_at};
ghost use Rattle.hs_workload.specs.declared.refusal.ReadError.TheVariants.{Memory};

use crate::draft::Reader;
use crate::refusal::{ReadError, Reason, Refusal};
use hs_records::Workload;
use hs_text::{Stop, is_tidy, split_line};
use std::alloc::Global;

/// The error for what ended the reading of this line.
fn error_at(line: u32, stop: Stop<Reason>) -> ReadError
    ensures { result ≡ error_at line stop }
{
    match stop {
        Stop::Fault(reason) => ReadError::Refused(Refusal { line, reason }),
        Stop::Memory => ReadError::Memory,
    }
}

/// Reads the lines in their order.
fn read_lines(alloc: Global, text: &[u8]) -> Result<Workload, ReadError>
    ensures found { IfOk result (λ workload. Reads text.now (workload_of workload)) }
    ensures clean { OnOk result (first_fault text.now ≡ None) }
    ensures refused { IfErr result (Refuses (first_fault text.now)) }
{
    let is_seen = is_tidy(text);
    let mut reader = Reader::new(alloc);
    let mut rest = text;
    while let Some((line, behind)) = split_line(rest) {
        let number = reader.lines() + 1;
        if let Err(stop) = reader.read_line(line, is_seen) {
            return Err(error_at(number, stop));
        }
        rest = behind;
    }
    if !reader.has_ended(rest) {
        return Err(error_at(reader.lines() + 1, Stop::Fault(Reason::Truncated)));
    }
    match reader.into_workload() {
        Ok(workload) => Ok(workload),
        Err(_) => Err(ReadError::Memory),
    }
}

/// The workload that a text is, or the text's first bad line with the line's first reason. `Memory` may
/// come with any text.
pub fn read_workload(alloc: Global, text: &[u8]) -> Result<Workload, ReadError>
    // What is read is the one text of the workload.
    ensures found { IfOk result (λ workload. Reads text.now (workload_of workload)) }
    ensures clean { OnOk result (first_fault text.now ≡ None) }
    // What is refused has that line for its first bad one.
    ensures refused { IfErr result (Refuses (first_fault text.now)) }
    // A workload's text is read as that workload, unless memory runs out.
    ensures only { (W : PlainWorkload) → Reads text.now W →
        MatchResult result (λ workload. workload_of workload ≡ W) (λ error. error ≡ Memory) }
{
    read_lines(alloc, text)
}
