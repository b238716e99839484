//! What node sets are.

ghost use Rattle.std.specs.Prelude.{◌≡◌, ℕ};
ghost use Rattle.hs_base.specs.declared.node_set.NodeSet.{NodeSet};
ghost use Rattle.hs_base.specs.NodeSets.{has_node};

/// A law, which does nothing: sets that have the same nodes are one set.
pub fn same_nodes_are_one_set()
    ensures { (a b : NodeSet) → ((n : ℕ) → has_node a n ≡ has_node b n) → a ≡ b }
{}
