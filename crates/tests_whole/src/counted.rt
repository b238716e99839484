//! How often each actor passes the gate, compared with what the run noted.

ghost use Rattle.std.specs.Prelude.{◌<◌};

use crate::gated::called;
use crate::inputs::{A_TRIGGER_ALONE, THREE_NODES};
use hs_base::Gate;
use std::alloc::{AllocError, Global};
use std::marker::Sync;
use std::process::Abort;
use std::sync::Wait;
use std::sync::atomic::{AtomicU32, Ordering};
use std::test::Fail;
use std::thread::Threads;

/// Six clients, three agents and the coordinator.
const ACTORS: u32 = 10;

/// The operations of the six clients, in their order.
const OPERATIONS: [u32; 6] = [26, 3, 4, 5, 6, 7];

/// What the longest client needs, two operations a round.
const ROUNDS: u32 = 13;

/// How many steps each actor passed, and whether one came out of its order.
#[derive(Drop)]
struct Counting {
    passed: Vec<AtomicU32>,
    wrong: AtomicU32,
}

impl Counting {
    fn new(alloc: Global) -> Result<Counting, AllocError> {
        let mut passed = Vec::new(alloc);
        for _actor in 0..ACTORS {
            passed.push(AtomicU32::new(0))?;
        }
        Ok(Counting {
            passed,
            wrong: AtomicU32::new(0),
        })
    }

    /// How many steps the actor of this number passed.
    fn of(&self, actor: usize) -> u32 {
        match self.passed.get(actor) {
            Some(passed) => passed.load(Ordering::SeqCst),
            None => 0,
        }
    }

    /// Whether each actor's steps came as 0, 1, 2 and so on, and no other actor came.
    fn were_in_order(&self) -> bool {
        self.wrong.load(Ordering::SeqCst) == 0
    }

    /// Whether this is the next step of an actor that there is.
    fn is_next(&self, actor: u32, step: u32) -> bool {
        match self.passed.get(actor as usize) {
            Some(passed) => passed.fetch_add(1, Ordering::SeqCst) == step,
            None => false,
        }
    }
}

impl Gate for Counting {
    fn pass(&self, actor: u32, step: u32) {
        if !self.is_next(actor, step) {
            self.wrong.store(1, Ordering::SeqCst);
        }
    }
}

/// What an output's journal notes of the agents and then of the coordinator: the items that each took.
#[derive(Drop)]
struct Noted {
    place: usize,
    items: [u32; 5],
}

/// Whether the line begins a part of the journal that is an agent's or the coordinator's.
fn is_head(line: &str) -> bool {
    line.starts_with("log ") || line == "coordinator"
}

/// Whether the line notes an item that was taken, or a message that was heard.
fn is_item(line: &str) -> bool {
    line.starts_with("chunk ")
        || line.starts_with("crumb ")
        || line.starts_with("trigger ")
        || line == "ask"
        || line.starts_with("told ")
}

impl Noted {
    fn add(&mut self, line: &str) {
        if is_head(line) {
            self.place = self.place.saturating_add(1);
        } else if is_item(line) && self.place < 5 {
            self.items[self.place] = self.items[self.place].saturating_add(1);
        }
    }
}

/// What is noted in this output.
fn noted_in(output: &[u8]) -> Result<[u32; 5], Fail> {
    let text = str::from_utf8(output).ok().ok_or("a text")?;
    let mut noted = Noted {
        place: 0,
        items: [0; 5],
    };
    for line in text.lines() {
        noted.add(line);
    }
    Ok(noted.items)
}

/// The clients passed before each operation.
fn assert_clients<R: Abort>(rt: &R, gate: &Counting) {
    for client in 0..6 {
        assert_eq!(rt; gate.of(client), OPERATIONS[client], "{client}");
    }
}

/// The agent of a node passed before each pass, each item and each turn.
fn assert_agent<R: Abort>(rt: &R, gate: &Counting, items: &[u32; 5], node: usize)
    requires { node < 3 }
{
    let steps = (2 * ROUNDS).saturating_add(items[1 + node]);
    assert_eq!(rt; gate.of(6 + node), steps, "{node}");
}

/// The coordinator passed before each pass and each message.
fn assert_coordinator<R: Abort>(rt: &R, gate: &Counting, items: &[u32; 5]) {
    assert_eq!(rt; gate.of(9), ROUNDS.saturating_add(items[4]));
}

/// Each actor of a run counts its steps over all rounds.
fn assert_steps<R: Threads + Wait + Sync + AllocGlobal + Abort>(
    rt: &R,
    words: &[&str],
) -> Result<(), Fail> {
    let gate = Counting::new(rt.alloc())?;
    let output = called(rt, words, THREE_NODES, &gate)?;
    let items = noted_in(&output)?;
    assert!(rt; gate.were_in_order());
    assert_clients(rt, &gate);
    assert_agent(rt, &gate, &items, 0);
    assert_agent(rt, &gate, &items, 1);
    assert_agent(rt, &gate, &items, 2);
    assert_coordinator(rt, &gate, &items);
    Ok(())
}

#[test]
fn each_actor_counts_its_steps(rt: HostRuntime) -> Result<(), Fail> {
    assert_steps(&rt, &["run"])
}

/// Those that publish and look pass none.
#[test]
fn each_actor_counts_its_steps_under_watch(rt: HostRuntime) -> Result<(), Fail> {
    assert_steps(&rt, &["run", "--watch"])
}

/// Behind the only round it is done on one thread, which asks nobody, that the coordinator hears of the trigger. The agent may take
/// it in the round.
#[test]
fn closing_passes_no_gate(rt: HostRuntime) -> Result<(), Fail> {
    let gate = Counting::new(rt.alloc())?;
    called(&rt, &["run"], A_TRIGGER_ALONE, &gate)?;
    assert!(rt; gate.were_in_order());
    assert_eq!(rt; gate.of(0), 1);
    assert!(rt; gate.of(1) == 2 || gate.of(1) == 3);
    assert_eq!(rt; gate.of(2), 1);
    Ok(())
}

/// No actor passed this gate.
fn assert_unpassed<R: Abort>(rt: &R, gate: &Counting) {
    assert!(rt; gate.were_in_order());
    for actor in 0..ACTORS {
        assert_eq!(rt; gate.of(actor as usize), 0, "{actor}");
    }
}

/// The commands without actors, but for `check`.
const ON_ONE_THREAD: [&[&str]; 6] = [
    &["replay"],
    &["replay", "--json"],
    &["convert"],
    &["compare", "2", "2"],
    &["make", "1", "2"],
    &["drill", "1", "2"],
];

/// One thread asks nobody.
#[test]
fn other_commands_pass_no_gate(rt: HostRuntime) -> Result<(), Fail> {
    let gate = Counting::new(rt.alloc())?;
    for words in ON_ONE_THREAD {
        called(&rt, words, THREE_NODES, &gate)?;
    }
    assert_unpassed(&rt, &gate);
    Ok(())
}

/// Nor does a check.
#[test]
fn a_check_passes_no_gate(rt: HostRuntime) -> Result<(), Fail> {
    let gate = Counting::new(rt.alloc())?;
    let output = called(&rt, &["replay"], THREE_NODES, &gate)?;
    let text = str::from_utf8(&output).ok().ok_or("a text")?;
    let both = format!(in rt.alloc(); "{THREE_NODES}{text}")?;
    called(&rt, &["check"], both.as_str(), &gate)?;
    assert_unpassed(&rt, &gate);
    Ok(())
}
