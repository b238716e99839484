//! Whether a hub has all pages that lives say they handed out.

ghost use Rattle.std.specs.Prelude.{◌≡◌, count_by};
ghost use Rattle.hs_traces.specs.Keys.{is_from};
ghost use Rattle.hs_verdict.specs.Pages.{pages_in, is_full, are_full};

use hs_base::TraceId;
use hs_standings::{Latest, Life, Standings};
use hs_traces::{PageKey, Traces, is_from};

/// The pages of a trace that a hub has: those that wait, or these, which are out.
#[derive(Clone, Copy)]
pub enum HeldPages<'a> {
    /// The pages of the trace that wait to be given out.
    Waiting(&'a Traces),
    /// The pages of the trace that is out, by their keys.
    Out(&'a [PageKey]),
}

/// How many of these pages a life wrote.
fn count_from(keys: &[PageKey], life: Life) -> usize
    ensures { result ≡ count_by (is_from life.node life.epoch) keys.now }
{
    keys.iter()
        .filter(|key| is_from(life.node, life.epoch, key))
        .count()
}

/// How many pages of a trace a life wrote.
fn held_of(pages: &HeldPages<'_>, trace: TraceId, life: Life) -> usize
    ensures { result ≡ count_by (is_from life.node life.epoch) (pages_in pages.now trace) }
{
    match pages {
        HeldPages::Waiting(traces) => traces.waiting_from(trace, life.node, life.epoch),
        HeldPages::Out(keys) => count_from(keys, life),
    }
}

/// Whether all pages are held that a life says it handed out.
fn is_full(pages: &HeldPages<'_>, trace: TraceId, life: Life, latest: &Latest) -> bool
    ensures { result ≡ is_full (pages_in pages.now trace) (life, latest.now) }
{
    latest.standing.pages == held_of(pages, trace, life) as u64
}

/// Whether of each life that spoke of a trace as many of these pages are held as it says it handed out.
pub fn are_full(standings: &Standings, trace: TraceId, pages: &HeldPages<'_>) -> bool
    ensures { result ≡ are_full standings.now trace (pages_in pages.now trace) }
{
    let Some(lives) = standings.lives(trace) else {
        return true;
    };
    for (life, latest) in lives.iter() {
        if !is_full(pages, trace, *life, latest) {
            return false;
        }
    }
    true
}
