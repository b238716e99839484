//! Laws of asked sets. Each is the contract of a function that does nothing.

ghost use Rattle.std.specs.Prelude.{◌≡◌, ℕ, Bool, true};
ghost use Rattle.std.specs.List.{list_any};
ghost use Rattle.hs_base.specs.declared.ids.GroupId.{GroupId};
ghost use Rattle.hs_coord.specs.Following.{Messages, is_of, is_asked, has_ask, is_answer_from, is_answered};
ghost use Rattle.hs_coord.specs.Orderly.{IsOrderly, IsClosed};

/// Who starts at the node that admitted a group, and goes on from each node to those that its messages
/// of the group name, comes to the group's asked set and no further. That holds where there is a
/// message and no node spoke out of turn.
pub fn asked_set_is_least()
    ensures closed { (group : GroupId) (messages : Messages) → IsOrderly group messages
        → list_any (is_of group) messages ≡ true
        → IsClosed group messages (is_asked group messages) }
    ensures least { (group : GroupId) (messages : Messages) (set : ℕ → Bool)
        → IsOrderly group messages → IsClosed group messages set
        → (node : ℕ) → is_asked group messages node ≡ true → set node ≡ true }
{}

/// Where no node spoke out of turn, a node's ask was answered exactly where some message of the group is
/// an `Answer` from the node.
pub fn answers_follow_asks()
    ensures { (group : GroupId) (messages : Messages) → IsOrderly group messages
        → (node : ℕ) → has_ask group messages node ≡ true
        → is_answered group messages node ≡ list_any (is_answer_from group node) messages }
{}
