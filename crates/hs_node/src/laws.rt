//! What holds of what a node says. Each law is the contract of a function that does nothing.

ghost use Rattle.std.specs.Prelude.{◌≡◌, ℕ, ◌<◌, ◌^◌, true, List, length};
ghost use Rattle.hs_base.specs.NodeSets.{has_node};
ghost use Rattle.hs_claimed.specs.Claims.{PlainClaims};
ghost use Rattle.hs_claimed.specs.declared.answers.StatedClaim.{StatedClaim};
ghost use Rattle.hs_whole.specs.declared.answers.NoteLimits.{NoteLimits};
ghost use Rattle.hs_whole.specs.Notes.{AreOut, PlainNotes, crumbs_of};
ghost use Rattle.hs_whole.specs.History.{NoteDeed, AreOfClients, HavePlaces, IsWholeSince, has_led_to, notes_after};
ghost use Rattle.hs_wire.specs.declared.message.Wholeness.TheVariants.{WholeSince, UnheardSince};
ghost use Rattle.hs_node.specs.Told.{node_standing, was_named};

use hs_whole::whole_is_said_of_what_was_handed_out;

/// Whatever a node heard, and whatever groups claim: it says of a trace that it is whole since the horizon only where a later part of what it
/// heard shows it, and each node to which a crumb of the trace led in that part, in a segment or outside of any, was named to the hub
/// by a message for the claim's group, or for another group that claims the trace.
pub fn whole_is_said_where_crumbs_were_told()
    ensures whole { (limits : NoteLimits) (claims : PlainClaims) (claim : StatedClaim) (deeds : List NoteDeed)
        → (AreOut limits → ⊥) → AreOfClients limits.clients deeds → HavePlaces limits deeds → length deeds < 2 ^ 63
        → (node_standing (notes_after limits deeds) claims claim).wholeness ≡ WholeSince
        → (whole : IsWholeSince (notes_after limits deeds).horizon limits.clients claim.trace deeds)
        × ((node : ℕ) → has_led_to claim.trace node whole.later ≡ true → was_named claims claim node ≡ true) }
    ensures unheard { (notes : PlainNotes) (claims : PlainClaims) (claim : StatedClaim)
        → (node_standing notes claims claim).wholeness ≡ UnheardSince
        → (node : ℕ) → has_node (crumbs_of notes claim.trace) node ≡ true → was_named claims claim node ≡ true }
{
    whole_is_said_of_what_was_handed_out();
}
