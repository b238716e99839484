//! How a node stands to a trace that a group claims.

ghost use Rattle.std.specs.Prelude.{◌≡◌};
ghost use Rattle.hs_node.specs.Told.{are_told, told_wholeness, told_standing};

use hs_base::NodeSet;
use hs_wire::{Standing, Wholeness};

/// Whether each of these nodes is among those that were told.
pub(crate) fn are_told(crumbs: NodeSet, told: NodeSet) -> bool
    ensures { result ≡ are_told crumbs told }
{
    crumbs.union(told).0 == told.0
}

/// How whole a trace is said to be, where each of its crumbs was told, or not.
fn told_wholeness(is_told: bool, wholeness: Wholeness) -> Wholeness
    ensures { result ≡ told_wholeness is_told wholeness }
{
    match wholeness {
        Wholeness::WholeSince | Wholeness::UnheardSince => {
            if is_told {
                wholeness
            } else {
                Wholeness::Unknown
            }
        }
        Wholeness::Lost | Wholeness::Unknown | Wholeness::Open => wholeness,
    }
}

/// A standing that says whole or unheard only where each crumb was told.
pub(crate) fn told_standing(is_told: bool, standing: Standing) -> Standing
    ensures { result ≡ told_standing is_told standing }
{
    Standing {
        wholeness: told_wholeness(is_told, standing.wholeness),
        ..standing
    }
}
