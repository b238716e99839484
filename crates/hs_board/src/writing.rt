//! Writing what watchers saw.

ghost use Rattle.std.specs.Prelude.{◌≡◌, ◌<◌, ◌^◌, [], ◌∷◌, ◌++◌, decimal, length, map, OnOk};
ghost use Rattle.hs_text.specs.Text.{text_of};
ghost use Rattle.hs_text.specs.Writing.{spaced};
ghost use Rattle.hs_board.specs.WatchText.{seen_line, watcher_lines, watchers_from, watch_text};

use crate::progress::Progress;
use hs_base::{List, Memory};
use hs_text::{end_line, push_spaced, push_spaced_number};

/// Appends what watchers saw, in the order of their numbers, and the last line. After an `Err` no clause says what the text is.
pub fn write_watched(out: &mut Vec<u8>, all: &[List<Progress>]) -> Result<(), Memory>
    ensures { OnOk result (out.new.items ≡ out.old.items ++ watch_text (map (λ seen. seen.items) all.now)) }
{
    push_watchers(out, all)?;
    out.extend_from_slice(b"end\n")?;
    Ok(())
}

/// Appends the lines of all watchers.
fn push_watchers(out: &mut Vec<u8>, all: &[List<Progress>]) -> Result<(), Memory>
    ensures { OnOk result (out.new.items ≡ out.old.items ++ text_of (watchers_from 0 (map (λ seen. seen.items) all.now))) }
{
    for number in 0..all.len() {
        push_watcher(out, number as u64, all[number].as_slice())?;
    }
    Ok(())
}

/// Appends the lines of the watcher of this number.
fn push_watcher(out: &mut Vec<u8>, number: u64, seen: &[Progress]) -> Result<(), Memory>
    ensures { OnOk result (out.new.items ≡ out.old.items ++ text_of (watcher_lines number seen.now)) }
{
    out.extend_from_slice(b"watcher")?;
    push_spaced_number(out, number)?;
    end_line(out)?;
    push_seen(out, seen)
}

/// Appends a line for each of these totals.
fn push_seen(out: &mut Vec<u8>, seen: &[Progress]) -> Result<(), Memory>
    ensures { OnOk result (out.new.items ≡ out.old.items ++ text_of (map seen_line seen.now)) }
{
    for progress in seen {
        push_progress(out, progress)?;
    }
    Ok(())
}

/// Appends the line of totals that were seen.
fn push_progress(out: &mut Vec<u8>, progress: &Progress) -> Result<(), Memory>
    ensures { OnOk result (out.new.items ≡ out.old.items ++ (seen_line progress.now ++ 10 ∷ [])) }
{
    out.extend_from_slice(b"seen")?;
    push_spaced_number(out, u64::from(progress.rounds))?;
    push_count(out, b"operations", progress.operations)?;
    push_count(out, b"records", progress.records)?;
    push_count(out, b"null", progress.nulls)?;
    push_count(out, b"taken", progress.taken)?;
    push_count(out, b"given", progress.given)?;
    end_line(out)?;
    Ok(())
}

/// Appends a word and a number, each behind a space.
fn push_count(out: &mut Vec<u8>, word: &[u8], count: u32) -> Result<(), Memory>
    ensures { OnOk result (out.new.items ≡ out.old.items ++ spaced (word.now ∷ decimal count ∷ [])) }
{
    push_spaced(out, word)?;
    push_spaced_number(out, u64::from(count))
}
