//! The order of groups.

ghost use Rattle.std.specs.Prelude.{◌≡◌};
ghost use Rattle.hs_pins.specs.Priorities.{priority_of, group_at, mark_of, same_group};

use hs_base::{Group, GroupId, TraceId, TriggerId, rank_of};

/// A group's place among those of its trigger id: by the rank of its lead, then by its node, then by
/// its number there. Contracts order priorities by `priority_cmp`.
#[derive(Clone, Copy, PartialEq, Eq, PartialOrd, Ord, Hash)]
pub struct Priority {
    pub word: u64,
    pub lead: u128,
    pub node: u16,
    pub number: u32,
}

impl Priority {
    /// The priority of a group.
    pub fn of(group: &Group) -> Priority
        ensures { result ≡ priority_of group.now }
    {
        let rank = rank_of(group.lead);
        Priority {
            word: rank.word,
            lead: rank.trace,
            node: group.id.node,
            number: group.id.number,
        }
    }

    /// The group of a trigger id that has this priority.
    pub fn group(self, trigger: TriggerId) -> Group
        ensures { result ≡ group_at trigger self }
    {
        Group {
            id: GroupId {
                node: self.node,
                number: self.number,
            },
            trigger,
            lead: TraceId(self.lead),
        }
    }
}

/// Whether two groups are one: all that they name is the same.
pub fn is_group(group: &Group, other: &Group) -> bool
    ensures { result ≡ same_group group.now other.now }
{
    group.id.node == other.id.node
        && (group.id.number == other.id.number
            && (group.trigger.0 == other.trigger.0 && group.lead.0 == other.lead.0))
}

/// What names a group here: its trigger id and its priority.
#[derive(Clone, Copy, PartialEq, Eq, Hash)]
pub struct Mark {
    pub trigger: TriggerId,
    pub priority: Priority,
}

impl Mark {
    /// The mark of a group.
    pub fn of(group: &Group) -> Mark
        ensures { result ≡ mark_of group.now }
    {
        Mark {
            trigger: group.trigger,
            priority: Priority::of(group),
        }
    }
}
