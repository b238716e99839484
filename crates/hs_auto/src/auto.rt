//! An autotrigger (`docs/RULES.md`, "Autotriggers").

ghost use Rattle.std.specs.Prelude.{◌≡◌, ◌<◌, ◌≤◌, ◌^◌, List, [], ◌∷◌, ◌==◌, ◌&&◌, not, length, count_by, nat_lt, IfOk};
ghost use Rattle.hs_auto.specs.Firing.{Sample, fires, laterals_after, sampled, reaches_share};
ghost use Rattle.hs_auto.specs.Watching.{HasSampled, reach_of};
ghost use Rattle.hs_base.specs.Rules.{IsAutoRule};
ghost use Rattle.hs_auto.specs.Rooms.{ranked_of, counted_of, Ranks};

use crate::counted::CountedWindow;
use crate::laterals::distinct_others;
use crate::ranked::RankedWindow;
use crate::sampled::Sampled;
use circular_buffer::HeapCircularBuffer;
use hs_base::limits::{MAX_WINDOW, WHOLE_SHARE};
use hs_base::{AutoRule, Laterals, Memory, TraceId};
use std::alloc::Global;
use std::marker::Model;

/// A trigger that fires by itself. Contracts see its rule, and the latest of its samples, as far
/// back as the rule looks.
#[derive(Drop)]
pub struct Auto {
    rule: AutoRule,
    /// Of size 0 where the rule does not rank values.
    ranked: RankedWindow,
    /// Of size 0 where the rule does not count equal values.
    counted: CountedWindow,
    /// Of capacity 0 where the rule gives no laterals.
    recent: HeapCircularBuffer<TraceId>,
}

impl Model for Auto {
    ghost use Rattle.hs_auto.specs.Watching.{Watch};

    ghost Value = { Watch };

    ghost use Rattle.hs_auto.specs.Autos.{watch_of, IsAuto};

    ghost view = { watch_of };

    ghost invariant = { IsAuto };
}

/// How many values a rule ranks, how many it counts, and how many traces it keeps.
#[derive(Clone, Copy)]
struct Rooms {
    ranked: u32,
    counted: u32,
    recent: u32,
}

impl Auto {
    /// An autotrigger that was given no sample yet, with all the memory that it will use.
    pub fn make(alloc: Global, rule: AutoRule) -> Result<Auto, Memory>
        requires { IsAutoRule rule }
        ensures rule { IfOk result (λ auto. auto.rule ≡ rule) }
        ensures fresh { IfOk result (λ auto. HasSampled auto []) }
    {
        let rooms = rooms_of(rule);
        Ok(Auto {
            rule,
            ranked: RankedWindow::make(alloc, rooms.ranked)?,
            counted: CountedWindow::make(alloc, rooms.counted)?,
            recent: HeapCircularBuffer::with_capacity(alloc, rooms.recent as usize)?,
        })
    }

    /// Takes a sample, and answers whether it fires. It takes no memory.
    pub fn sample(&mut self, value: u64, trace: TraceId) -> Sampled
        // Over the list of all samples that came earlier, the latest first.
        ensures answer { (samples : List Sample) → HasSampled self.old samples
            → result ≡ sampled self.old.rule samples (record { value = value; trace = trace }) }

        // Whether it fires or not, the sample is then the latest.
        ensures after { (samples : List Sample) → HasSampled self.old samples
            → HasSampled self.new (record { value = value; trace = trace } ∷ samples) }
        ensures rule { self.new.rule ≡ self.old.rule }
    {
        let less = self.ranked.count_less(value);
        let sampled = if self.fires(value, less) {
            Sampled::Fired {
                laterals: self.laterals(trace),
            }
        } else {
            Sampled::Quiet
        };
        self.ranked.push(value, less);
        self.counted.push(value);
        self.recent.push_front(trace);
        sampled
    }

    /// Whether it fires, where so many values of the window that it ranks are less.
    fn fires(&self, value: u64, less: usize) -> bool
        requires less { Ranks self.now.rule → less ≡ count_by (λ earlier. nat_lt earlier value) self.now.values }
        requires few { less ≤ MAX_WINDOW }
        ensures { (samples : List Sample) → HasSampled self.now samples
            → result ≡ fires self.now.rule samples value }
    {
        match self.rule {
            AutoRule::Exception { .. } => value != 0,
            AutoRule::Percentile { share, .. } | AutoRule::Queue { share, .. } => {
                ranks_high(&self.ranked, less, share)
            }
            AutoRule::Category { share, .. } => is_rare(&self.counted, value, share),
        }
    }

    fn laterals(&self, trace: TraceId) -> Laterals
        ensures { (samples : List Sample) → HasSampled self.now samples
            → result ≡ laterals_after self.now.rule samples trace }
    {
        distinct_others(&self.recent, trace)
    }
}

fn rooms_of(rule: AutoRule) -> Rooms
    ensures ranked { result.ranked ≡ ranked_of rule }
    ensures counted { result.counted ≡ counted_of rule }
    ensures recent { result.recent ≡ reach_of rule }
{
    let none = Rooms {
        ranked: 0,
        counted: 0,
        recent: 0,
    };
    match rule {
        AutoRule::Exception { .. } => none,
        AutoRule::Percentile { window, .. } => Rooms {
            ranked: window,
            ..none
        },
        AutoRule::Category { window, .. } => Rooms {
            counted: window,
            ..none
        },
        AutoRule::Queue {
            window,
            laterals,
            ..
        } => Rooms {
            ranked: window,
            recent: laterals,
            ..none
        },
    }
}

/// Whether a window is full, and so many of its values reach the share.
fn ranks_high(ranked: &RankedWindow, less: usize, share: u32) -> bool
    requires size { ranked.now.size < 2 ^ 32 }
    requires few { less < 2 ^ 32 }
    ensures { result ≡ ((length ranked.now.values == ranked.now.size)
        && reaches_share ranked.now.size share less) }
{
    ranked.is_full() && reaches(less, share, ranked.size())
}

/// Whether a full window's values equal to this one stay below the share.
fn is_rare(counted: &CountedWindow, value: u64, share: u32) -> bool
    requires { counted.now.size < 2 ^ 32 }
    ensures { result ≡ ((length counted.now.values == counted.now.size)
        && not (reaches_share counted.now.size share
        (count_by (λ earlier. earlier == value) counted.now.values))) }
{
    counted.is_full() && !reaches(counted.count_equal(value), share, counted.size())
}

/// Whether so many of a window are at least its share, in hundredths of a percent.
fn reaches(count: usize, share: u32, window: usize) -> bool
    requires count { count < 2 ^ 32 }
    requires window { window < 2 ^ 32 }
    ensures { result ≡ reaches_share window share count }
{
    count as u64 * u64::from(WHOLE_SHARE) >= u64::from(share) * window as u64
}
