//! The claims of a node.

ghost use Rattle.std.specs.Prelude.{◌≡◌, ◌+◌, ◌-◌, ◌<◌, ◌≤◌, ◌++◌, ◌||◌, [], ◌∷◌, length, map, drop, fold, position, slice_get, slice_set, nat_lt, nat_le, false, Some, None, is_some, IfOk, option_map, option_copied};
ghost use Rattle.std.specs.Bool.{OnFalse};
ghost use Rattle.std.specs.List.{list_any};
ghost use Rattle.std.specs.Option.{option_map_or};
ghost use Rattle.std.specs.VecDeque.{deque_len, deque_capacity};
ghost use Rattle.hs_base.specs.Ids.{same_trace};
ghost use Rattle.hs_base.specs.declared.ids.TraceId.{TraceId};
ghost use Rattle.hs_claimed.specs.declared.answers.StatedClaim.{StatedClaim};
ghost use Rattle.hs_claimed.specs.Claims.{PlainClaims, no_claims, is_of, is_the, with_other, others, traces_of, claim_of, is_known, is_full_for, answer_to_claim, with_claims, after_claim, place_of, with_number, noted_at, after_spoke, with_name, named_at, after_named, told_by, with_told, told_in, told_for, current, is_about, is_news_of, is_news_in, with_said, after_said, advanced, oldest, is_above, claimant, without_oldest, after_forget};

use crate::answers::{ClaimOutcome, Claimant, StatedClaim};
use crate::news::is_news;
use hs_base::{Group, GroupId, Laterals, Memory, NodeSet, TraceId};
use hs_wire::Standing;
use std::alloc::Global;
use std::collections::VecDeque;
use std::marker::Model;

/// The traces that groups claim at a node, the oldest claim first, each with what was said of it last; and the groups, each with the
/// greatest number of a message that speaks of it, and the nodes that messages named. At most so many are kept, in memory that is taken at first.
#[derive(Drop)]
pub struct ClaimedTraces {
    most: u32,
    claims: VecDeque<StatedClaim>,
    groups: VecDeque<Claimant>,
    place: usize,
    /// How many groups were forgotten, and for groups of one slot how many claimed before the latest of them. It is a hint: where it
    /// leads to another group, all are looked through.
    forgotten: u64,
    hints: Vec<u64>,
}

impl Model for ClaimedTraces {
    ghost use Rattle.hs_claimed.specs.Claims.{PlainClaims};
    ghost use Rattle.hs_claimed.specs.ClaimsLayout.{claims_in, AreClaims};

    ghost Value = { PlainClaims };

    ghost view = { claims_in };

    ghost invariant = { AreClaims };
}

/// Whether a trace is among these.
fn is_among(traces: &Laterals, trace: TraceId) -> bool
    ensures { result ≡ list_any (same_trace trace) traces.now }
{
    for place in 0..traces.len() {
        if Some(trace) == traces.get(place) {
            return true;
        }
    }
    false
}

/// Adds a lateral, unless it is the lead or there already.
fn add_other(others: &mut Laterals, lead: TraceId, trace: TraceId)
    requires { length others.old < 32 }
    ensures { others.new ≡ with_other lead others.old trace }
{
    if trace == lead || is_among(others, trace) {
        return;
    }
    others.push(trace);
}

/// Each lateral once, but for the lead.
fn others_of(lead: TraceId, laterals: &Laterals) -> Laterals
    ensures { result ≡ others lead laterals.now }
{
    let mut others = Laterals::none();
    for place in 0..laterals.len() {
        let Some(trace) = laterals.get(place) else {
            break;
        };
        add_other(&mut others, lead, trace);
    }
    others
}

/// Adds a claim of each of these traces.
fn push_claims(claims: &mut VecDeque<StatedClaim>, group: GroupId, traces: &Laterals)
    requires { deque_len claims.old + length traces.now ≤ deque_capacity claims.old }
    ensures items { claims.new.items ≡ claims.old.items ++ map (claim_of group) traces.now }
    ensures few { length claims.new.items ≤ length claims.old.items + length traces.now }
    ensures capacity { deque_capacity claims.new ≡ deque_capacity claims.old }
{
    for place in 0..traces.len() {
        let Some(trace) = traces.get(place) else {
            break;
        };
        claims.push_back_reserved(StatedClaim::new(group, trace));
    }
}

/// Takes so many claims out in front, or all.
fn pop_claims(claims: &mut VecDeque<StatedClaim>, count: u32)
    ensures items { claims.new.items ≡ drop count claims.old.items }
    ensures few { length claims.new.items ≤ length claims.old.items }
    ensures capacity { deque_capacity claims.new ≡ deque_capacity claims.old }
{
    for _ in 0..count {
        let _ = claims.pop_front();
    }
}

impl ClaimedTraces {
    /// No claims, of at most so many. All memory is taken here.
    pub fn make(alloc: Global, most: u32) -> Result<ClaimedTraces, Memory>
        ensures { IfOk result (λ claims. claims ≡ no_claims most) }
    {
        Ok(ClaimedTraces {
            most,
            claims: VecDeque::with_capacity(alloc, most as usize)?,
            groups: VecDeque::with_capacity(alloc, most as usize)?,
            place: 0,
            forgotten: 0,
            hints: vec![in alloc; 0; most as usize]?,
        })
    }

    /// How many claims there are.
    pub fn len(&self) -> usize
        ensures len { result ≡ length self.now.claims }
        ensures within { result ≤ self.now.most }
    {
        self.claims.len()
    }

    /// How many more traces may be claimed.
    pub fn free(&self) -> usize
        ensures { result ≡ self.now.most - length self.now.claims }
    {
        self.most as usize - self.claims.len()
    }

    /// The slot of a group.
    fn slot(&self, group: GroupId) -> usize {
        let spread = u64::from(group.number) + u64::from(group.node) * 40_503;
        (spread % (self.hints.len() as u64 + 1)) as usize
    }

    /// Where a group may stand. It is looked at before it counts.
    fn hint(&self, group: GroupId) -> usize {
        match self.hints.get(self.slot(group)) {
            Some(before) => before.wrapping_sub(self.forgotten) as usize,
            None => 0,
        }
    }

    /// Whether a group stands at a place.
    fn stands_at(&self, group: GroupId, place: usize) -> bool
        ensures { result ≡ option_map_or (is_the group) (slice_get self.now.groups place) false }
    {
        match self.groups.get(place) {
            Some(one) => group == one.group.id,
            None => false,
        }
    }

    /// Where a group stands, if it claims traces.
    fn find(&self, group: GroupId) -> Option<usize>
        ensures { result ≡ place_of self.now group }
    {
        let _ = &self.most;
        let place = self.hint(group);
        if self.stands_at(group, place) {
            return Some(place);
        }
        self.groups.iter().position(|one| group == one.group.id)
    }

    /// Notes that a group is about to claim behind all others.
    fn set_hint(&mut self, group: GroupId)
        ensures { self.new ≡ self.old }
    {
        let slot = self.slot(group);
        let before = self.forgotten.wrapping_add(self.groups.len() as u64);
        if let Some(hint) = self.hints.get_mut(slot) {
            *hint = before;
        }
    }

    /// Whether a group claims traces.
    pub fn is_known(&self, group: GroupId) -> bool
        ensures { result ≡ is_known self.now group }
    {
        self.find(group).is_some()
    }

    /// Whether these traces and the lead are more than there are places for.
    fn is_full_for(&self, others: &Laterals) -> bool
        ensures { (lead : TraceId) → result ≡ is_full_for self.now (lead ∷ others.now) }
    {
        self.free() <= others.len() as usize || self.groups.len() >= self.most as usize
    }

    /// Claims each trace of a group that is not known, where there is a place for each.
    fn enter(&mut self, group: Group, others: &Laterals)
        requires free { is_full_for self.old (group.lead ∷ others.now) ≡ false }
        requires new { is_known self.old group.id ≡ false }
        ensures { self.new ≡ with_claims self.old group (group.lead ∷ others.now) }
    {
        self.set_hint(group.id);
        self.claims
            .push_back_reserved(StatedClaim::new(group.id, group.lead));
        push_claims(&mut self.claims, group.id, others);
        self.groups
            .push_back_reserved(Claimant::new(group, others.len() + 1));
    }

    /// A group claims its lead and its laterals, each once. After `Known`, and after `Full`, nothing has changed.
    pub fn claim(&mut self, group: Group, laterals: &Laterals) -> ClaimOutcome
        ensures answer { result ≡ answer_to_claim self.old group (traces_of group.lead laterals.now) }
        ensures after { self.new ≡ after_claim self.old group (traces_of group.lead laterals.now) }
    {
        if self.is_known(group.id) {
            return ClaimOutcome::Known;
        }
        let others = others_of(group.lead, laterals);
        if self.is_full_for(&others) {
            return ClaimOutcome::Full;
        }
        self.enter(group, &others);
        ClaimOutcome::Claimed
    }

    /// Notes the number of a message that speaks of a group, and answers whether it is known. Otherwise nothing changes.
    pub fn spoke(&mut self, group: GroupId, number: u64) -> bool
        ensures answer { result ≡ is_known self.old group }
        ensures after { self.new ≡ after_spoke self.old group number }
    {
        match self.find(group) {
            Some(place) => {
                self.groups[place].hear(number);
                true
            }
            None => false,
        }
    }

    /// Notes the number of a message that speaks of a group and names these nodes, and answers whether the group is known. Otherwise nothing
    /// changes.
    pub fn named(&mut self, group: GroupId, nodes: NodeSet, number: u64) -> bool
        ensures answer { result ≡ is_known self.old group }
        ensures after { self.new ≡ after_named self.old group nodes number }
    {
        match self.find(group) {
            Some(place) => {
                self.groups[place].name(nodes, number);
                true
            }
            None => false,
        }
    }

    /// The nodes that messages named which speak of a group, if it is known.
    pub fn told_by(&self, group: GroupId) -> NodeSet
        ensures { result ≡ told_by self.now group }
    {
        match self.find(group) {
            Some(place) => self.groups[place].told,
            None => NodeSet::none(),
        }
    }

    /// The nodes with those that messages named for a claim, where it is of the trace.
    fn with_told(&self, trace: TraceId, nodes: NodeSet, claim: &StatedClaim) -> NodeSet
        ensures { result ≡ with_told self.now trace nodes claim.now }
    {
        if trace == claim.trace {
            nodes.union(self.told_by(claim.group))
        } else {
            nodes
        }
    }

    /// The nodes that messages named which speak of a group that claims the trace.
    pub fn told_for(&self, trace: TraceId) -> NodeSet
        ensures { result ≡ told_for self.now trace }
    {
        let mut nodes = NodeSet::none();
        for place in 0..self.claims.len() {
            nodes = self.with_told(trace, nodes, &self.claims[place]);
        }
        nodes
    }

    /// The claim that is looked at, if there is one.
    pub fn current(&self) -> Option<&StatedClaim>
        ensures { option_copied result ≡ current self.now }
    {
        self.claims.get(self.place)
    }

    /// Whether a standing is of the claim that is looked at, and says what was not said of it last.
    pub fn is_news(&self, standing: &Standing) -> bool
        ensures { result ≡ is_news_in self.now standing.now }
    {
        match self.current() {
            Some(claim) => claim.is_news(standing),
            None => false,
        }
    }

    /// Notes that a standing was said by the message of this number, where it is news of the claim that is looked at. Otherwise
    /// nothing changes.
    pub fn said(&mut self, standing: &Standing, number: u64) -> bool
        ensures answer { result ≡ is_news_in self.old standing.now }
        ensures after { self.new ≡ after_said self.old standing.now number }
    {
        if !self.is_news(standing) {
            return false;
        }
        let place = self.place;
        self.claims[place].said = Some(*standing);
        self.spoke(standing.group, number);
        true
    }

    /// Looks at the next claim, and at the first behind the last.
    pub fn advance(&mut self)
        ensures { self.new ≡ advanced self.old }
    {
        let next = self.place.saturating_add(1);
        self.place = if next < self.claims.len() { next } else { 0 };
    }

    /// The group that claimed first, if there is one.
    pub fn oldest(&self) -> Option<Claimant>
        ensures { result ≡ oldest self.now }
    {
        self.groups.front().copied()
    }

    /// Whether there are more claims than so many.
    pub fn is_above(&self, limit: u32) -> bool
        ensures { result ≡ is_above self.now limit }
    {
        self.claims.len() > limit as usize
    }

    /// Forgets the group that claimed first, with its traces. The claim that is looked at stays, unless it is one of them.
    pub fn forget_oldest(&mut self)
        ensures { self.new ≡ after_forget self.old }
    {
        let Some(one) = self.groups.pop_front() else {
            return;
        };
        pop_claims(&mut self.claims, one.traces);
        self.place = self.place.saturating_sub(one.traces as usize);
        self.forgotten = self.forgotten.wrapping_add(1);
    }
}

impl StatedClaim {
    /// A claim of which nothing was said.
    fn new(group: GroupId, trace: TraceId) -> StatedClaim
        ensures { result ≡ claim_of group trace }
    {
        StatedClaim {
            group,
            trace,
            said: None,
        }
    }

    /// Whether a standing is of this claim, and news of it.
    fn is_news(&self, standing: &Standing) -> bool
        ensures { result ≡ is_news_of standing.now self.now }
    {
        standing.group == self.group
            && standing.trace == self.trace
            && is_news(&self.said, standing)
    }
}

impl Claimant {
    /// A group with so many traces, of which no message speaks.
    fn new(group: Group, traces: u32) -> Claimant
        ensures { result ≡ claimant group traces }
    {
        Claimant {
            group,
            traces,
            last: None,
            told: NodeSet::none(),
        }
    }

    /// Notes the number of a message.
    fn hear(&mut self, number: u64)
        ensures { self.new ≡ with_number number self.old }
    {
        let last = match self.last {
            Some(last) => number.max(last),
            None => number,
        };
        self.last = Some(last);
    }

    /// Notes the number of a message that names these nodes.
    fn name(&mut self, nodes: NodeSet, number: u64)
        ensures { self.new ≡ with_name nodes number self.old }
    {
        self.hear(number);
        self.told = self.told.union(nodes);
    }
}
