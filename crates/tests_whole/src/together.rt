//! A gate that lets nobody pass a first step before all actors have come to theirs.

use crate::crowded::segments;
use crate::gated::called;
use crate::inputs::TWO_NODES;
use hs_base::Gate;
use std::sync::atomic::{AtomicU32, Ordering};
use std::test::Fail;
use std::thread;

/// How often an actor looks for the others before it goes on without them.
const LOOKS: u32 = 100_000_000;

/// So many actors wait for each other at their first steps.
#[derive(Drop)]
struct Together {
    actors: u32,
    came: AtomicU32,
    broken: AtomicU32,
}

impl Together {
    fn of(actors: u32) -> Together {
        Together {
            actors,
            came: AtomicU32::new(0),
            broken: AtomicU32::new(0),
        }
    }

    fn wait(&self) {
        for _look in 0..LOOKS {
            if self.came.load(Ordering::SeqCst) >= self.actors {
                return;
            }
            thread::yield_now();
        }
        self.broken.store(1, Ordering::SeqCst);
    }

    /// Whether so many came, and none went on without the others.
    fn were_together(&self) -> bool {
        self.came.load(Ordering::SeqCst) == self.actors && self.broken.load(Ordering::SeqCst) == 0
    }
}

impl Gate for Together {
    fn pass(&self, _actor: u32, step: u32) {
        if step == 0 {
            self.came.fetch_add(1, Ordering::SeqCst);
            self.wait();
        }
    }
}

/// The clients and agents of two nodes, and the coordinator.
#[test]
fn all_act_at_once(rt: HostRuntime) -> Result<(), Fail> {
    let together = Together::of(5);
    called(&rt, &["run"], TWO_NODES, &together)?;
    assert!(rt; together.were_together());
    Ok(())
}

/// Three nodes of three clients each, so that no two threads are enough for the nodes, nor for the clients of one.
#[test]
fn all_of_three_nodes_act_at_once(rt: HostRuntime) -> Result<(), Fail> {
    let together = Together::of(13);
    let input = segments(rt.alloc(), 3, 3, 3)?;
    called(&rt, &["run"], input.as_str(), &together)?;
    assert!(rt; together.were_together());
    Ok(())
}
