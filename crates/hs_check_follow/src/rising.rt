//! Stamps that rise.

ghost use Rattle.std.specs.Prelude.{◌≡◌};
ghost use Rattle.hs_law_journal.specs.Shape.{step_stamp, draw_stamps, log_stamps, rise};
ghost use Rattle.hs_client.specs.Drawn.{stamp_of};
ghost use Rattle.hs_check_follow.specs.Rising.{is_above};

use hs_records::{Draw, Step};

/// The stamp of a draw: its place in the history of its pool.
pub fn stamp_of(draw: Draw) -> u64
    ensures { result ≡ stamp_of draw }
{
    match draw {
        Draw::Got { stamp, .. } => stamp,
        Draw::Empty { stamp } => stamp,
    }
}

/// The stamp of a step, if it is an offer that was an event of the pool.
pub fn step_stamp(step: Step) -> Option<u64>
    ensures { result ≡ step_stamp step }
{
    match step {
        Step::Given { stamp } => Some(stamp),
        Step::Missed { stamp } => Some(stamp),
        _ => None,
    }
}

/// Whether a stamp is above the one before it, if there is one.
fn is_above(before: Option<u64>, stamp: u64) -> bool
    ensures { result ≡ is_above before stamp }
{
    match before {
        Some(before) => before < stamp,
        None => true,
    }
}

/// Whether the stamps of these draws rise.
pub(crate) fn draws_rise(draws: &[Draw]) -> bool
    ensures { result ≡ rise (draw_stamps draws.now) }
{
    let mut before = None;
    for draw in draws {
        let stamp = stamp_of(*draw);
        if !is_above(before, stamp) {
            return false;
        }
        before = Some(stamp);
    }
    true
}

/// Whether the stamps of the offers among these steps rise.
pub(crate) fn log_rises(log: &[Step]) -> bool
    ensures { result ≡ rise (log_stamps log.now) }
{
    let mut before = None;
    for step in log {
        if let Some(stamp) = step_stamp(*step) {
            if !is_above(before, stamp) {
                return false;
            }
            before = Some(stamp);
        }
    }
    true
}
