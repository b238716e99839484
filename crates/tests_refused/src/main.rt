//! An agent that takes crumbs and triggers, of which `.ci/refused` refuses one allocation after another. It ends with 0 where memory was
//! never wanting; with 6 where a call of the agent answered so, and each later one too; with 5 where no agent could be made; and with 1
//! where a later call answered something else.
#![tactic(auto)]

use hs_base::{Laterals, Memory};
use std::process::ExitCode;
use tests_with::{Limits, Site};

const LIMITS: Limits = Limits {
    threshold: 2,
    traces: 8,
    pins: 4,
    burst: 10,
    rate: 0,
};

/// Leaves a crumb, triggers and offers a chunk. Answers whether memory was wanting for each.
fn wants(site: &mut Site, trace: u32) -> [bool; 3] {
    let crumb = site.crumb(u128::from(trace), 1).is_err();
    let trigger = site
        .trigger(0, u128::from(trace), Laterals::none())
        .is_err();
    [crumb, trigger, site.offer().is_err()]
}

/// Whether memory was wanting once, and whether a call after that answered something else.
fn played(site: &mut Site) -> (bool, bool) {
    let mut wanting = false;
    let mut came_back = false;
    for trace in 0u32..20 {
        for wants in wants(site, trace) {
            came_back |= wanting && !wants;
            wanting |= wants;
        }
    }
    (wanting, came_back)
}

/// The number that the program ends with.
fn number_of(made: Result<Site, Memory>) -> u8 {
    let Ok(mut site) = made else {
        return 5;
    };
    match played(&mut site) {
        (_, true) => 1,
        (true, false) => 6,
        (false, false) => 0,
    }
}

fn main(rt: HostRuntime) -> ExitCode {
    ExitCode::from(number_of(Site::make(rt.alloc(), LIMITS)))
}
