//! Rows of samples, each with what comes of it.

ghost use Rattle.hs_base.specs.Rules.{IsAutoRule};

use crate::rows::row;
use hs_auto::{Auto, Sampled};
use hs_base::limits::{MAX_LATERALS, MAX_WINDOW, WHOLE_SHARE};
use hs_base::{AutoRule, Laterals, Memory, TraceId, TriggerId};
use std::alloc::Global;

const TRIGGER: TriggerId = TriggerId(1);

/// A value, its trace, and the laterals with which it fires, or `None` where it stays quiet.
type Row = (u64, u128, Option<&'static [u128]>);

const EXCEPTION: AutoRule = AutoRule::Exception { trigger: TRIGGER };

const EXCEPTION_ROWS: [Row; 3] = [(0, 1, None), (7, 2, Some(&[])), (0, 3, None)];

const PERCENTILE: AutoRule = AutoRule::Percentile {
    trigger: TRIGGER,
    window: 4,
    share: 7500,
};

const PERCENTILE_ROWS: [Row; 6] = [
    (10, 1, None),
    (20, 2, None),
    (30, 3, None),
    (40, 4, None),
    (35, 5, Some(&[])),
    (35, 6, None),
];

const CATEGORY: AutoRule = AutoRule::Category {
    trigger: TRIGGER,
    window: 4,
    share: 5000,
};

const CATEGORY_ROWS: [Row; 6] = [
    (1, 1, None),
    (1, 2, None),
    (1, 3, None),
    (2, 4, None),
    (2, 5, Some(&[])),
    (2, 6, None),
];

const QUEUE: AutoRule = AutoRule::Queue {
    trigger: TRIGGER,
    window: 2,
    share: 5000,
    laterals: 2,
};

const QUEUE_ROWS: [Row; 4] = [
    (1, 1, None),
    (1, 2, None),
    (5, 3, Some(&[2, 1])),
    (9, 2, Some(&[3])),
];

/// Two of the last three must be less.
const RANKED: AutoRule = AutoRule::Percentile {
    trigger: TRIGGER,
    window: 3,
    share: 6000,
};

/// Values join above and below those that leave.
const RANKED_ROWS: [Row; 10] = [
    (30, 1, None),
    (20, 1, None),
    (10, 1, None),
    (5, 1, None),
    (15, 1, Some(&[])),
    (12, 1, Some(&[])),
    (9, 1, None),
    (40, 1, Some(&[])),
    (13, 1, Some(&[])),
    (13, 1, None),
];

/// Whether these are the laterals, in their order.
fn are(laterals: &Laterals, wanted: &[u128]) -> bool {
    let mut place = 0u32;
    for trace in wanted {
        if laterals.get(place) != Some(TraceId(*trace)) {
            return false;
        }
        place = place.saturating_add(1);
    }
    laterals.len() == place
}

/// Whether a sample came out as its row says.
fn is_wanted(sampled: &Sampled, wanted: Option<&[u128]>) -> bool {
    match sampled {
        Sampled::Quiet => wanted.is_none(),
        Sampled::Fired { laterals } => match wanted {
            Some(wanted) => are(laterals, wanted),
            None => false,
        },
    }
}

/// Gives the samples in order. Answers whether each comes out as its row says.
fn gives(alloc: Global, rule: AutoRule, rows: &[Row]) -> Result<bool, Memory>
    requires { IsAutoRule rule }
{
    let mut auto = Auto::make(alloc, rule)?;
    let mut right = true;
    for (value, trace, wanted) in rows {
        right &= is_wanted(&auto.sample(*value, TraceId(*trace)), *wanted);
    }
    Ok(right)
}

const WIDE_PERCENTILE: AutoRule = AutoRule::Percentile {
    trigger: TRIGGER,
    window: MAX_WINDOW,
    share: WHOLE_SHARE - 1,
};

const WIDE_CATEGORY: AutoRule = AutoRule::Category {
    trigger: TRIGGER,
    window: MAX_WINDOW,
    share: 1,
};

const WIDE_QUEUE: AutoRule = AutoRule::Queue {
    trigger: TRIGGER,
    window: MAX_WINDOW,
    share: WHOLE_SHARE - 1,
    laterals: MAX_LATERALS as u32,
};

/// Gives 1,024 samples of 5. Answers whether none fires.
fn fills(auto: &mut Auto) -> bool {
    let mut quiet = true;
    for trace in 0..MAX_WINDOW {
        quiet &= auto.sample(5, TraceId(u128::from(trace))) == Sampled::Quiet;
    }
    quiet
}

/// Behind as many samples of 5 as a window may have one of 6 fires with so many laterals.
fn fires_behind(alloc: Global, rule: AutoRule, count: u32) -> Result<bool, Memory>
    requires { IsAutoRule rule }
{
    let mut auto = Auto::make(alloc, rule)?;
    let quiet = fills(&mut auto);
    match auto.sample(6, TraceId(u128::from(MAX_WINDOW))) {
        Sampled::Fired { laterals } => Ok(quiet && laterals.len() == count),
        Sampled::Quiet => Ok(false),
    }
}

#[test]
fn each_kind_fires_by_its_rule(rt: HostRuntime) {
    row(
        &rt,
        "exception",
        gives(rt.alloc(), EXCEPTION, &EXCEPTION_ROWS),
    );
    row(
        &rt,
        "percentile",
        gives(rt.alloc(), PERCENTILE, &PERCENTILE_ROWS),
    );
    row(&rt, "category", gives(rt.alloc(), CATEGORY, &CATEGORY_ROWS));
    row(&rt, "queue", gives(rt.alloc(), QUEUE, &QUEUE_ROWS));
    row(&rt, "ranked", gives(rt.alloc(), RANKED, &RANKED_ROWS));
}

#[test]
fn the_widest_windows_fire(rt: HostRuntime) {
    row(
        &rt,
        "percentile",
        fires_behind(rt.alloc(), WIDE_PERCENTILE, 0),
    );
    row(&rt, "category", fires_behind(rt.alloc(), WIDE_CATEGORY, 0));
    row(&rt, "queue", fires_behind(rt.alloc(), WIDE_QUEUE, 32));
}
