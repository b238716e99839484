//! A gate that holds steps back at random.

use hs_base::Gate;
use rand_core::{Rng, SeedableRng};
use rand_xoshiro::SplitMix64;
use std::{hint, thread};

/// Of four steps one yields the processor a few times, one spins for a while, and two go on at once. Which ones follows from
/// the seed, the actor and the step.
#[derive(Clone, Copy, Drop)]
pub(crate) struct Shaking {
    pub(crate) seed: u64,
}

impl Gate for Shaking {
    fn pass(&self, actor: u32, step: u32) {
        let place = u64::from(actor) << 32 | u64::from(step);
        let word = SplitMix64::seed_from_u64(self.seed ^ place).next_u64();
        let turns = word >> 8 & 63;
        match word & 3 {
            0 => give_way(turns),
            1 => spin(turns * 16),
            _ => {}
        }
    }
}

/// Yields the processor so often.
fn give_way(turns: u64) {
    for _turn in 0..turns {
        thread::yield_now();
    }
}

/// Waits for so many turns of a loop.
fn spin(turns: u64) {
    for _turn in 0..turns {
        hint::spin_loop();
    }
}
