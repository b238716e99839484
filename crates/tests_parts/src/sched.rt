//! Turns over two queues of equal items.

ghost use Rattle.std.specs.Prelude.{◌≡◌, ◌+◌, ◌≤◌, ℕ, [], replicate, if◌then◌else◌, ◌==◌, IfOk, IsSome};
ghost use Rattle.hs_base.specs.Rules.{AreRules};
ghost use Rattle.hs_sched.specs.Turns.{IsSchedule, share_of, shares_of};

use crate::rows::row;
use hs_base::limits::{MAX_SIZE, MAX_TRIGGER, MIN_SIZE};
use hs_base::{List, Memory, TriggerId, TriggerRule};
use hs_sched::{Queues, Scheduler};
use std::alloc::Global;
use tests_with::greatest_rules;

const COST: u32 = 44;

/// So many items of one cost wait for the ids 1 and 2.
#[derive(Drop)]
struct Waiting {
    one: u32,
    two: u32,
}

impl Queues for Waiting {
    ghost costs = { λ s id. if id == 1 then replicate s.one 44
        else (if id == 2 then replicate s.two 44 else []) };

    ghost sends = { λ s id t. t.one + t.two + 1 ≡ s.one + s.two };

    fn next_cost(&self, trigger: TriggerId) -> Option<u32> {
        let count = match trigger.0 {
            1 => self.one,
            2 => self.two,
            _ => 0,
        };
        if count == 0 { None } else { Some(COST) }
    }

    fn send_next(&mut self, trigger: TriggerId) {
        if trigger.0 == 1 {
            self.one -= 1;
        } else {
            self.two -= 1;
        }
    }
}

/// The id 1 with weight 2, and the id 2 with weight 1.
fn two_rules(alloc: Global) -> Result<List<TriggerRule>, Memory>
    ensures rules { IfOk result (λ rules. AreRules rules.items) }
    ensures declared { IfOk result (λ rules. IsSome (share_of (record { shares = shares_of rules.items; size = MIN_SIZE }) 1)
        × IsSome (share_of (record { shares = shares_of rules.items; size = MIN_SIZE }) 2)) }
{
    let mut rules = List::with_room(alloc, 2)?;
    rules.push(TriggerRule {
        id: TriggerId(1),
        weight: 2,
        burst: 1,
        rate: 1,
    });
    rules.push(TriggerRule {
        id: TriggerId(2),
        weight: 1,
        burst: 1,
        rate: 1,
    });
    Ok(rules)
}

/// A scheduler of these two ids with pages of 64 bytes.
fn two_shares(alloc: Global) -> Result<Scheduler, Memory>
    ensures schedule { IfOk result IsSchedule }
    ensures size { IfOk result (λ scheduler. scheduler.size ≡ MIN_SIZE) }
    ensures declared { IfOk result (λ scheduler. IsSome (share_of scheduler 1) × IsSome (share_of scheduler 2)) }
{
    let rules = two_rules(alloc)?;
    Scheduler::make(alloc, &rules, MIN_SIZE)
}

/// What waits for the ids 1 and 2, and their deficits, after each turn.
const TURNS: [(u32, u32, u64, u64); 3] = [(4, 2, 40, 20), (1, 1, 36, 40), (0, 0, 0, 0)];

/// With pages of 64 bytes, weight 2 pays for two items of 44 and then for three, and weight 1 for one.
fn turns_share_by_weight(alloc: Global) -> Result<bool, Memory> {
    let mut scheduler = two_shares(alloc)?;
    let mut waiting = Waiting { one: 6, two: 3 };
    let mut right = true;
    for turn in TURNS {
        scheduler.turn(&mut waiting);
        let first = scheduler.deficit(TriggerId(1));
        let second = scheduler.deficit(TriggerId(2));
        right &= (waiting.one, waiting.two, first, second) == turn;
    }
    Ok(right)
}

/// A scheduler of so many of the greatest rules is made.
fn is_made(alloc: Global, count: u8) -> Result<bool, Memory>
    requires { count ≤ MAX_TRIGGER }
{
    let rules = greatest_rules(alloc, count)?;
    Scheduler::make(alloc, &rules, MAX_SIZE)?;
    Ok(rules.len() == usize::from(count))
}

#[test]
fn schedulers(rt: HostRuntime) {
    row(
        &rt,
        "turns share by weight",
        turns_share_by_weight(rt.alloc()),
    );
    row(&rt, "no rule", is_made(rt.alloc(), 0));
    row(&rt, "most rules", is_made(rt.alloc(), MAX_TRIGGER));
}
