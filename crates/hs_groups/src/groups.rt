//! All groups that are followed.

ghost use Rattle.std.specs.Prelude.{◌≡◌, ◌≢◌, ◌++◌, ◌<◌, ◌≤◌, ◌↔◌, length, map, find, position, Ok, Err, Some, None, IfOk, IfSome, IfNone, option_copied};
ghost use Rattle.std.specs.Option.{option_map_or};
ghost use Rattle.std.specs.VecDeque.{deque_capacity};
ghost use Rattle.std.specs.NonZero.{non_zero_usize_get};
ghost use Rattle.hs_groups.specs.Following.{answer_of, taken, has_unsent, sent_to, renewed, asked_again};
ghost use Rattle.hs_groups.specs.Groups.{PlainGroups, AreOut, no_groups, first_nodes, latest_of, is_known, is_of, group_of, answer_of_hear, heard, answer_to, followed_by, changed_at, begins, after_told, is_full, next_ask, after_sent, after_pass};

use crate::answers::{GroupLimits, LifeHeard, MakeFault, ToldOutcome};
use crate::followed_group::FollowedGroup;
use hs_base::limits::MOST_NODES;
use hs_base::{Ask, GroupId, Memory, NodeId, NodeSet, Told, Why};
use std::alloc::Global;
use std::collections::VecDeque;
use std::marker::Model;

/// The nodes below this.
fn first_nodes(nodes: u16) -> NodeSet
    requires { nodes ≤ MOST_NODES }
    ensures { result ≡ first_nodes nodes }
{
    if nodes < MOST_NODES {
        NodeSet(NodeSet::only(NodeId(nodes)).0 - 1)
    } else {
        NodeSet(u128::MAX)
    }
}

/// The groups that nodes told of, with the nodes that were asked for each, and the latest epoch that was heard of each node.
/// Contracts see the groups, the oldest one first, and the epochs by node, 0 where none was heard.
#[derive(Drop)]
pub struct Groups {
    limits: GroupLimits,
    all: NodeSet,
    epochs: Vec<u64>,
    groups: VecDeque<FollowedGroup>,
}

impl Model for Groups {
    ghost use Rattle.hs_groups.specs.Groups.{PlainGroups};
    ghost use Rattle.hs_groups.specs.GroupsLayout.{groups_in, IsKept};

    ghost Value = { PlainGroups };

    ghost view = { groups_in };

    ghost invariant = { IsKept };
}

impl Groups {
    /// No groups, within these limits. All memory is taken here: a `Limits` fault is of more than 128 nodes or of no group at
    /// all.
    pub fn make(alloc: Global, limits: GroupLimits) -> Result<Groups, MakeFault>
        ensures made { IfOk result (λ groups. groups ≡ no_groups limits) }
        ensures limits { (result ≡ Err MakeFault.Limits) ↔ AreOut limits }
    {
        if limits.groups == 0 || limits.nodes > MOST_NODES {
            return Err(MakeFault::Limits);
        }
        match Groups::empty(alloc, limits) {
            Ok(groups) => Ok(groups),
            Err(_) => Err(MakeFault::Memory),
        }
    }

    /// No groups, within these limits.
    fn empty(alloc: Global, limits: GroupLimits) -> Result<Groups, Memory>
        requires groups { 0 < limits.groups }
        requires nodes { limits.nodes ≤ MOST_NODES }
        ensures { IfOk result (λ groups. groups ≡ no_groups limits) }
    {
        Ok(Groups {
            limits,
            all: first_nodes(limits.nodes),
            epochs: vec![in alloc; 0; limits.nodes as usize]?,
            groups: VecDeque::with_capacity(alloc, limits.groups as usize)?,
        })
    }

    /// Whether a node is there, and each node to which crumbs lead.
    fn is_known(&self, node: NodeId, crumbs: NodeSet) -> bool
        ensures { result ≡ is_known self.now node crumbs }
    {
        node.0 < self.limits.nodes && crumbs.without(self.all).is_empty()
    }

    /// Hears an epoch of a node, and answers whether it is later than all that were heard of it. If so, each ask of it that has no
    /// answer is to be sent again. Takes no memory.
    pub fn hear(&mut self, node: NodeId, epoch: u64) -> LifeHeard
        ensures answer { result ≡ answer_of_hear self.old node epoch }
        ensures heard { self.new ≡ heard self.old node epoch }
    {
        if node.0 >= self.limits.nodes {
            return LifeHeard::Refused;
        }
        if epoch > self.epochs[node.0 as usize] {
            self.epochs[node.0 as usize] = epoch;
            renew_each(&mut self.groups, node);
            return LifeHeard::Newer;
        }
        LifeHeard::Known
    }

    /// Takes a message in which a node tells of a group, in the life of this epoch: the group is followed from then on, a node
    /// that a crumb names for the first time is to be asked, and an `Answer` of the latest life answers the node's ask
    /// (`docs/RULES.md`, "The hub"). `Taken` has what `hear` answers of the epoch. `Refused` comes where a node is named that is
    /// not there, and `Full` where it would begin one group too many while the oldest is not settled; after both all is as it
    /// was. Takes no memory.
    pub fn told(&mut self, node: NodeId, epoch: u64, told: &Told) -> ToldOutcome
        ensures answer { result ≡ answer_to self.old node epoch told.now }
        ensures after { self.new ≡ after_told self.old node epoch told.now }
    {
        if !self.is_known(node, told.crumbs) {
            return ToldOutcome::Refused;
        }
        if self.is_full(told.group.id) {
            return ToldOutcome::Full;
        }
        let answered = self.answered(node, epoch, told.why);
        self.follow(node, answered, told);
        ToldOutcome::Taken(self.hear(node, epoch))
    }

    /// The nodes whose ask a message answers: its node, where it is an answer of the latest life.
    fn answered(&self, node: NodeId, epoch: u64, why: Why) -> NodeSet
        requires { node.0 < self.now.limits.nodes }
        ensures { result ≡ answer_of why (latest_of self.now node) epoch node }
    {
        if why == Why::Answer && epoch >= self.epochs[node.0 as usize] {
            NodeSet::only(node)
        } else {
            NodeSet::none()
        }
    }

    /// Whether a message of this group exceeds the limit: it begins the group, as many are followed as may be, and the oldest is
    /// not settled.
    fn is_full(&self, group: GroupId) -> bool
        ensures { result ≡ is_full self.now group }
    {
        if self.group(group).is_some() || self.groups.len() < self.limits.groups as usize {
            return false;
        }
        match self.groups.front() {
            Some(oldest) => !oldest.is_settled(self.limits.tries),
            None => false,
        }
    }

    /// Where a group stands.
    fn place(&self, group: GroupId) -> Option<usize>
        ensures { result ≡ position (is_of group) self.now.groups }
    {
        self.groups
            .iter()
            .position(|followed| group == followed.ask.group.id)
    }

    /// Takes a message into its group, which its first message begins.
    fn follow(&mut self, node: NodeId, answered: NodeSet, told: &Told)
        requires node { node.0 < self.old.limits.nodes }
        ensures { self.new ≡ followed_by self.old node answered told.now }
    {
        match self.place(told.group.id) {
            Some(place) => take_at(&mut self.groups, place, answered, told),
            None => self.begin(node, answered, told),
        }
    }

    /// Takes the first message of a group. Where as many are followed as may be, the oldest is forgotten.
    fn begin(&mut self, node: NodeId, answered: NodeSet, told: &Told)
        requires node { node.0 < MOST_NODES }
        ensures { self.new ≡ begins self.old node answered told.now }
    {
        let mut followed = FollowedGroup::begin(node, told);
        followed.take(answered, told);
        if self.groups.len() >= self.limits.groups as usize {
            self.groups.pop_front();
        }
        self.groups.push_back_reserved(followed);
    }

    /// The ask that is to be sent next, with its node: the first of the oldest group that has one.
    pub fn next_ask(&self) -> Option<(NodeId, Ask)>
        ensures { result ≡ next_ask self.now }
    {
        match first_unsent(&self.groups) {
            Some(followed) => followed.next_ask(),
            None => None,
        }
    }

    /// Notes that a node's ask for a group was sent in this pass. Where the group is not followed nothing changes. Takes no memory.
    pub fn sent(&mut self, node: NodeId, group: GroupId, now: u64)
        ensures { self.new ≡ after_sent self.old node group now }
    {
        if let Some(place) = self.place(group) {
            send_at(&mut self.groups, place, node, now);
        }
    }

    /// A pass: each group whose asks were all sent, the last one `wait` passes ago or earlier, and that is not settled, is asked again
    /// for those that have no answer. Takes no memory.
    pub fn pass(&mut self, now: u64, wait: u64)
        ensures { self.new ≡ after_pass self.old now wait }
    {
        ask_each(&mut self.groups, now, wait, self.limits.tries);
    }

    /// What is followed of a group, or `None` where it is not.
    pub fn group(&self, group: GroupId) -> Option<&FollowedGroup>
        ensures { option_copied result ≡ group_of self.now group }
    {
        self.groups
            .iter()
            .find(|followed| group == followed.ask.group.id)
    }

    /// The latest epoch that was heard of a node, 0 where none was, or there is no such node.
    pub fn latest(&self, node: NodeId) -> u64
        ensures { result ≡ latest_of self.now node }
    {
        match self.epochs.get(node.0 as usize) {
            Some(epoch) => *epoch,
            None => 0,
        }
    }

    /// The groups that are followed, the oldest one first: those of the first slice, and then those of the other.
    pub fn as_slices(&self) -> (&[FollowedGroup], &[FollowedGroup])
        ensures { result.0.now ++ result.1.now ≡ self.now.groups }
    {
        self.groups.as_slices()
    }

    /// How many groups are followed.
    pub fn len(&self) -> usize
        ensures len { result ≡ length self.now.groups }
        ensures within { result ≤ self.now.limits.groups }
    {
        self.groups.len()
    }
}

/// Takes a message into the group at this place.
fn take_at(groups: &mut VecDeque<FollowedGroup>, place: usize, answered: NodeSet, told: &Told)
    requires { place < length groups.old.items }
    ensures items { groups.new.items ≡ changed_at (λ followed. taken followed answered told.now) groups.old.items place }
    ensures capacity { deque_capacity groups.new ≡ deque_capacity groups.old }
{
    let Some(followed) = groups.get_mut(place) else {
        unreachable!()
    };
    followed.take(answered, told);
}

/// Notes that an ask of the group at this place was sent.
fn send_at(groups: &mut VecDeque<FollowedGroup>, place: usize, node: NodeId, now: u64)
    requires { place < length groups.old.items }
    ensures items { groups.new.items ≡ changed_at (sent_to node now) groups.old.items place }
    ensures capacity { deque_capacity groups.new ≡ deque_capacity groups.old }
{
    let Some(followed) = groups.get_mut(place) else {
        unreachable!()
    };
    followed.sent(node, now);
}

/// Has the ask of a node sent once more in the group at this place, where it has no answer.
fn renew_at(groups: &mut VecDeque<FollowedGroup>, place: usize, node: NodeId)
    requires { place < length groups.old.items }
    ensures items { groups.new.items ≡ changed_at (renewed node) groups.old.items place }
    ensures len { length groups.new.items ≡ length groups.old.items }
    ensures capacity { deque_capacity groups.new ≡ deque_capacity groups.old }
{
    let Some(followed) = groups.get_mut(place) else {
        unreachable!()
    };
    followed.renew(node);
}

/// Has the ask of a node sent once more in each group where it has no answer.
fn renew_each(groups: &mut VecDeque<FollowedGroup>, node: NodeId)
    ensures items { groups.new.items ≡ map (renewed node) groups.old.items }
    ensures capacity { deque_capacity groups.new ≡ deque_capacity groups.old }
{
    for place in 0..groups.len() {
        renew_at(groups, place, node);
    }
}

/// Has the group at this place asked again, where it is due in this pass.
fn ask_at(groups: &mut VecDeque<FollowedGroup>, place: usize, now: u64, wait: u64, tries: u32)
    requires { place < length groups.old.items }
    ensures items { groups.new.items ≡ changed_at (asked_again now wait tries) groups.old.items place }
    ensures len { length groups.new.items ≡ length groups.old.items }
    ensures capacity { deque_capacity groups.new ≡ deque_capacity groups.old }
{
    let Some(followed) = groups.get_mut(place) else {
        unreachable!()
    };
    followed.again(now, wait, tries);
}

/// Has each group that is due in this pass asked again.
fn ask_each(groups: &mut VecDeque<FollowedGroup>, now: u64, wait: u64, tries: u32)
    ensures items { groups.new.items ≡ map (asked_again now wait tries) groups.old.items }
    ensures capacity { deque_capacity groups.new ≡ deque_capacity groups.old }
{
    for place in 0..groups.len() {
        ask_at(groups, place, now, wait, tries);
    }
}

/// The first group that has an ask to be sent.
fn first_unsent(groups: &VecDeque<FollowedGroup>) -> Option<&FollowedGroup>
    ensures { option_copied result ≡ find has_unsent groups.now.items }
{
    groups.iter().find(|followed| followed.has_unsent())
}
