//! Runs made workloads on threads again and again, each as it is and under watch, with a gate that holds their steps back at random, and
//! has each output checked. The arguments are the first seed, and for how many seconds; without them nothing is printed.
#![tactic(auto)]

mod calls;
mod counts;
mod gate;
mod runs;

use anyhow::{Context, Result};
use std::env;

fn main(rt: HostRuntime) -> Result<()> {
    let mut words = env::args(&rt)?.skip(1);
    let Some(first) = words.next() else {
        return Ok(());
    };
    let first: u64 = first.parse().ok().context("the first seed is a number")?;
    let seconds = words.next().context("for how many seconds")?;
    let seconds: u64 = seconds.parse().ok().context("the seconds are a number")?;
    runs::run(&rt, first, seconds)
}
