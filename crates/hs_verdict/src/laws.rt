//! What it means that a trace is said to be whole. The law is the contract of a function that does nothing.

ghost use Rattle.std.specs.Prelude.{◌≡◌, true, List};
ghost use Rattle.hs_base.specs.declared.ids.TraceId.{TraceId};
ghost use Rattle.hs_traces.specs.declared.key.PageKey.{PageKey};
ghost use Rattle.hs_groups.specs.Groups.{PlainGroups};
ghost use Rattle.hs_standings.specs.Standing.{PlainStandings};
ghost use Rattle.hs_verdict.specs.Whole.{IsWhole};
ghost use Rattle.hs_verdict.specs.Verdict.{is_whole};

/// A trace is said to be whole only where each node that was asked for it answered, no life of a node is open to it, and each node to which
/// crumbs of it led was asked and has notes of it if it ever had any.
pub fn whole_is_said_of_closed_lives()
    ensures { (groups : PlainGroups) (standings : PlainStandings) (trace : TraceId) (pages : List PageKey)
        → is_whole groups standings trace pages ≡ true → IsWhole groups standings trace pages }
{}
