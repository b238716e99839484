//! Reading a journal, a line at a time.

ghost use Rattle.std.specs.Prelude.{◌≡◌, ◌-◌, ◌^◌, ◌<◌, None, IfOk, IfErr, OnOk, MatchResult, length};
ghost use Rattle.hs_records.specs.Journals.{PlainJournal, journal_of};
ghost use Rattle.hs_journal.specs.Grammar.{Reads};
ghost use Rattle.hs_journal.specs.Faults.{first_fault, refusal_at, Refuses};
ghost use Rattle.hs_journal.specs.declared.refusal.JournalError.TheVariants.{Memory, Refused};

use crate::reader::Reader;
use crate::refusal::{JournalError, JournalReason, JournalRefusal};
use hs_records::Journal;
use hs_text::{Stop, is_tidy, split_line};
use std::alloc::Global;

/// The refusal of a line, from 1.
fn refused(line: u32, reason: JournalReason) -> JournalError
    ensures { result ≡ Refused (refusal_at line reason) }
{
    JournalError::Refused(JournalRefusal { line, reason })
}

/// The journal that a text is, or the text's first bad line with the line's first reason
/// (`docs/FORMATS.md`, "The journal"). `Memory` may come with any text.
pub fn read_journal(alloc: Global, text: &[u8]) -> Result<Journal, JournalError>
    requires { length text.now < 2 ^ 32 - 1 }
    // What is read is the one text of the journal.
    ensures found { IfOk result (λ journal. Reads text.now (journal_of journal)) }
    ensures clean { OnOk result (first_fault text.now ≡ None) }
    // What is refused has that line for its first bad one.
    ensures refused { IfErr result (Refuses (first_fault text.now)) }
    // A journal's text is read as that journal, unless memory runs out.
    ensures only { (J : PlainJournal) → Reads text.now J →
        MatchResult result (λ journal. journal_of journal ≡ J) (λ error. error ≡ Memory) }
{
    let is_seen = is_tidy(text);
    let mut reader = Reader::new(alloc);
    let mut rest = text;
    let mut line_number: u32 = 1;
    while let Some((line, after)) = split_line(rest) {
        match reader.read_line(line, is_seen) {
            Ok(()) => {}
            Err(Stop::Memory) => return Err(JournalError::Memory),
            Err(Stop::Fault(reason)) => return Err(refused(line_number, reason)),
        }
        rest = after;
        line_number += 1;
    }
    if !rest.is_empty() || !reader.is_ended() {
        return Err(refused(line_number, JournalReason::Truncated));
    }
    Ok(reader.into_journal())
}
