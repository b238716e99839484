//! The fair turn over queues (`docs/RULES.md`, "The fair turn").

ghost use Rattle.std.specs.Prelude.{◌≡◌, ◌≢◌, ◌+◌, ◌*◌, ◌<◌, ◌≤◌, ℕ, ◌==◌, All, drop, find, replicate, IfOk, IsSome};
ghost use Rattle.std.specs.Option.{option_copied};
ghost use Rattle.hs_base.specs.Rules.{AreRules};
ghost use Rattle.hs_records.specs.Fronts.{count_within};
ghost use Rattle.hs_sched.specs.Visits.{rest_within};
ghost use Rattle.hs_sched.specs.Turns.{IsSize, shares_of, share_of, deficit_of, visited_of, after_turn, left_after, sent_ids};
ghost use Rattle.hs_sched.specs.Sending.{SendsEach, CostAtMost};
ghost use Rattle.hs_sched.specs.Fairness.{IsFairVisit};

use crate::queues::Queues;
use crate::share::Share;
use hs_base::{List, Memory, TriggerId, TriggerRule};
use std::alloc::{AllocError, Global};
use std::marker::Model;

/// Shares what is sent among the trigger ids by their weights. Contracts see the share of each id, in
/// rising order, and the page size.
#[derive(Drop)]
pub struct Scheduler {
    shares: Vec<Share>,
    size: u32,
}

impl Model for Scheduler {
    ghost use Rattle.hs_sched.specs.Turns.{Schedule, IsSchedule};

    ghost Value = { Schedule };

    ghost view = { λ a. record { shares = a.shares.items; size = a.size } };

    ghost invariant = { λ a. IsSchedule (record { shares = a.shares.items; size = a.size }) };
}

impl Scheduler {
    ghost use Rattle.hs_sched.specs.Turns.{IsSchedule};

    /// A scheduler for these trigger ids, whose deficits are 0. The size of a page is in bytes.
    pub fn make(alloc: Global, triggers: &List<TriggerRule>, size: u32) -> Result<Scheduler, Memory>
        requires rules { AreRules triggers.now.items }
        requires size { IsSize size }
        ensures fresh { IfOk result
            (λ s. s ≡ record { shares = shares_of triggers.now.items; size = size }) }
        ensures schedule { IfOk result IsSchedule }
    {
        match first_shares(alloc, triggers.as_slice()) {
            Ok(shares) => Ok(Scheduler { shares, size }),
            Err(_) => Err(Memory),
        }
    }

    /// Visits each trigger id once, in rising order. What waits is sent while the budget lasts.
    pub fn turn<Q: Queues>(&mut self, queues: &mut Q)
        requires { CostAtMost self.old.size (Q.costs queues.old) }
        // The new deficits, and nothing else of the scheduler changes.
        ensures deficits { self.new ≡ after_turn self.old (Q.costs queues.old) }
        ensures by_id { (id : ℕ) →
            share_of self.new id ≡ visited_of self.old (Q.costs queues.old) id }

        // What was sent left the front of its queue; the rest, and other queues, are as they were.
        ensures left { (id : ℕ) →
            Q.costs queues.new id ≡ left_after self.old (Q.costs queues.old) id }

        // The sends, one after another: all of an id before the next one's.
        ensures order { SendsEach Q.sends queues.old
            (sent_ids self.old (Q.costs queues.old)) queues.new }

        // Each trigger id's visit is fair: it sends while its budget lasts, and keeps a deficit below one page.
        ensures visits { All
            (λ share. IsFairVisit self.old.size share (Q.costs queues.old share.trigger.0))
            self.old.shares }
        ensures schedule { IsSchedule self.new }
    {
        let size = u64::from(self.size);
        for share in self.shares.iter_mut() {
            let budget = share.deficit + u64::from(share.weight) * size;
            share.deficit = visit(queues, share.trigger, budget);
        }
    }

    /// The bytes that a declared trigger id may send beyond its next visit's own.
    pub fn deficit(&self, trigger: TriggerId) -> u64
        requires { IsSome (share_of self.now trigger.0) }
        ensures value { result ≡ deficit_of self.now trigger.0 }
        ensures bound { result < self.now.size }
    {
        match find_share(&self.shares, trigger) {
            Some(share) => share.deficit,
            None => unreachable!(),
        }
    }
}

/// The shares of these rules, whose deficits are 0.
fn first_shares(alloc: Global, rules: &[TriggerRule]) -> Result<Vec<Share>, AllocError>
    ensures { IfOk result (λ shares. shares.items ≡ shares_of rules.now) }
{
    let shares = rules.iter().map(|rule| Share {
        trigger: rule.id,
        weight: rule.weight,
        deficit: 0,
    });
    shares.collect(alloc)
}

/// The share of a trigger id, or `None` where there is none.
fn find_share(shares: &[Share], trigger: TriggerId) -> Option<&Share>
    ensures { option_copied result ≡ find (λ share. share.trigger.0 == trigger.0) shares.now }
{
    shares.iter().find(|share| share.trigger == trigger)
}

/// Sends what waits for a trigger id, in order, while the budget lasts. Answers the deficit that is
/// left.
fn visit<Q: Queues>(queues: &mut Q, trigger: TriggerId, budget: u64) -> u64
    ensures value { result ≡ rest_within budget (Q.costs queues.old trigger.0) }
    ensures left { Q.costs queues.new trigger.0
        ≡ drop (count_within budget (Q.costs queues.old trigger.0)) (Q.costs queues.old trigger.0) }
    ensures others { (id : ℕ) → id ≢ trigger.0 → Q.costs queues.new id ≡ Q.costs queues.old id }
    ensures order { SendsEach Q.sends queues.old
        (replicate (count_within budget (Q.costs queues.old trigger.0)) trigger.0)
        queues.new }
{
    let mut left = budget;
    while let Some(cost) = queues.next_cost(trigger) {
        let cost = u64::from(cost);
        if cost > left {
            return left;
        }
        queues.send_next(trigger);
        left -= cost;
    }
    0
}
