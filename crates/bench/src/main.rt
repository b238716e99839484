//! Times a part of the product: the first argument is the bench's name, the second how often to run what it
//! times. Without them nothing is printed.
#![tactic(auto)]

mod five;
mod link;
mod live;
mod pool;
mod ring;

use anyhow::{Context, Result, bail};
use std::env;

fn main(rt: HostRuntime) -> Result<()> {
    let mut words = env::args(&rt)?.skip(1);
    let Some(name) = words.next() else {
        return Ok(());
    };
    let count = words.next().context("a bench wants a number")?;
    let count: u32 = count.parse().ok().context("a bench wants a number")?;
    match name.as_str() {
        "five" => five::run(&rt, count),
        "link" => link::run(&rt, count),
        "live" => live::run(&rt, count),
        "pool" => pool::run(&rt, count),
        "ring" => ring::run(&rt, count),
        _ => bail!("no bench has this name"),
    }
}
