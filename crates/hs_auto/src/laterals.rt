//! The laterals of a sample that fires.

ghost use Rattle.std.specs.Prelude.{◌≡◌, ◌≤◌, ◌==◌, length};
ghost use Rattle.std.specs.List.{list_any};
ghost use Rattle.hs_auto.specs.Firing.{distinct, without};

use circular_buffer::HeapCircularBuffer;
use hs_base::limits::MAX_LATERALS;
use hs_base::{Laterals, TraceId};

/// The recent traces but this one, each once, where it stands first.
pub fn distinct_others(recent: &HeapCircularBuffer<TraceId>, trace: TraceId) -> Laterals
    requires { length recent.now.items ≤ MAX_LATERALS }
    ensures { result ≡ without trace (distinct recent.now.items) }
{
    let mut laterals = Laterals::none();
    for earlier in recent.iter() {
        if *earlier == trace || is_among(&laterals, *earlier) {
            continue;
        }
        laterals.push(*earlier);
    }
    laterals
}

fn is_among(laterals: &Laterals, trace: TraceId) -> bool
    ensures { result ≡ list_any (λ other. other.0 == trace.0) laterals.now }
{
    for place in 0..laterals.len() {
        if laterals.get(place) == Some(trace) {
            return true;
        }
    }
    false
}
