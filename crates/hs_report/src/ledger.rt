//! The text of a ledger.

ghost use Rattle.std.specs.Prelude.{◌≡◌, [], ◌∷◌, ◌++◌, decimal, map, OnOk};
ghost use Rattle.hs_text.specs.Text.{line_of, text_of};
ghost use Rattle.hs_text.specs.Writing.{spaced, trace_word};
ghost use Rattle.hs_report.specs.OutcomeText.{fate_words, entry_line, total_line, ledger_text};

use hs_base::{Fate, Memory, TraceId, TriggerId};
use hs_ledger::{Entry, Ledger, Totals};
use hs_text::{
    end_line, push_number, push_spaced, push_spaced_hex, push_spaced_number, push_spaced_trace,
};

/// Appends a ledger. The one error is want of memory.
pub fn push_ledger(out: &mut Vec<u8>, version: u8, ledger: &Ledger) -> Result<(), Memory>
    ensures { OnOk result (out.new.items ≡ out.old.items ++ ledger_text version ledger.now.entries.items ledger.now.totals) }
{
    out.extend_from_slice(b"ledger")?;
    push_spaced_number(out, ledger.entries.len() as u64)?;
    end_line(out)?;
    push_entries(out, version, ledger.entries.as_slice())?;
    push_totals(out, &ledger.totals)?;
    out.extend_from_slice(b"done\n")?;
    Ok(())
}

/// Appends a line for each entry.
fn push_entries(out: &mut Vec<u8>, version: u8, entries: &[Entry]) -> Result<(), Memory>
    ensures { OnOk result (out.new.items ≡ out.old.items ++ text_of (map (entry_line version) entries.now)) }
{
    for entry in entries {
        push_entry(out, version, entry)?;
    }
    Ok(())
}

/// Appends an entry's line.
fn push_entry(out: &mut Vec<u8>, version: u8, entry: &Entry) -> Result<(), Memory>
    ensures { OnOk result (out.new.items ≡ out.old.items ++ (entry_line version entry.now ++ 10 ∷ [])) }
{
    push_number(out, u64::from(entry.id.client.node))?;
    push_spaced_number(out, u64::from(entry.id.client.number))?;
    push_spaced_number(out, u64::from(entry.id.number))?;
    push_spaced_trace(out, version, entry.trace)?;
    out.extend_from_slice(b" ")?;
    push_fate(out, version, &entry.fate)?;
    end_line(out)?;
    Ok(())
}

/// Appends the words of a fate. The one error is want of memory.
pub fn push_fate(out: &mut Vec<u8>, version: u8, fate: &Fate) -> Result<(), Memory>
    ensures { OnOk result (out.new.items ≡ out.old.items ++ line_of (fate_words version fate.now)) }
{
    match fate {
        Fate::Null { stamp } => {
            out.extend_from_slice(b"null")?;
            push_spaced_number(out, *stamp)
        }
        Fate::Live => {
            out.extend_from_slice(b"live")?;
            Ok(())
        }
        Fate::Reported { trigger, lead } => {
            out.extend_from_slice(b"reported")?;
            push_claim(out, version, *trigger, *lead)
        }
        Fate::Evicted { chunks, traces } => {
            out.extend_from_slice(b"evicted")?;
            push_spaced_number(out, u64::from(*chunks))?;
            push_spaced_number(out, u64::from(*traces))
        }
        Fate::Abandoned {
            trigger,
            lead,
            rank,
        } => {
            out.extend_from_slice(b"abandoned")?;
            push_claim(out, version, *trigger, *lead)?;
            push_spaced_hex(out, 16, u128::from(rank.word))
        }
    }
}

/// Appends the total line.
pub(crate) fn push_totals(out: &mut Vec<u8>, totals: &Totals) -> Result<(), Memory>
    ensures { OnOk result (out.new.items ≡ out.old.items ++ (total_line totals.now ++ 10 ∷ [])) }
{
    out.extend_from_slice(b"total")?;
    push_spaced_number(out, u64::from(totals.records))?;
    push_count(out, b"live", totals.live)?;
    push_count(out, b"reported", totals.reported)?;
    push_count(out, b"null", totals.null)?;
    push_count(out, b"evicted", totals.evicted)?;
    push_count(out, b"abandoned", totals.abandoned)?;
    end_line(out)?;
    Ok(())
}

/// Appends a word and a number, each behind a space.
fn push_count(out: &mut Vec<u8>, word: &[u8], count: u32) -> Result<(), Memory>
    ensures { OnOk result (out.new.items ≡ out.old.items ++ spaced (word.now ∷ decimal count ∷ [])) }
{
    push_spaced(out, word)?;
    push_spaced_number(out, u64::from(count))
}

/// Appends a group's trigger and lead, each behind a space.
fn push_claim(
    out: &mut Vec<u8>,
    version: u8,
    trigger: TriggerId,
    lead: TraceId,
) -> Result<(), Memory>
    ensures { OnOk result (out.new.items ≡ out.old.items ++ spaced (decimal trigger.0 ∷ trace_word version lead ∷ [])) }
{
    push_spaced_number(out, u64::from(trigger.0))?;
    push_spaced_trace(out, version, lead)
}
