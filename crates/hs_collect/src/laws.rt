//! Laws of pages that are added. Each is the contract of a function that does nothing.

ghost use Rattle.std.specs.Prelude.{◌≡◌, reverse};
ghost use Rattle.hs_base.specs.declared.ids.TraceId.{TraceId};
ghost use Rattle.hs_collect.specs.Collected.{AreCollected, AreWholes, CanBeAdded, ComeInTurn, IsReordering, KeepsRuns, pieces_of};
ghost use Rattle.hs_collect.specs.Views.{Collection, Pieces, Sheets};

/// A list of pages collects one collection: the same traces, in one order, each with the same records.
pub fn pages_collect_one()
    ensures { (sheets : Sheets) (a b : Collection) → AreCollected sheets a → AreCollected sheets b → a ≡ b }
{}

/// Pages can be added where each goes on behind the latest page before it of its client and trace.
pub fn pages_in_turn_can_be_added()
    ensures { (sheets : Sheets) → ComeInTurn (reverse sheets) → CanBeAdded sheets }
{}

/// Pages can be added, and have the same records of each trace, in any order that keeps that of the pages of each client
/// and trace.
pub fn runs_decide_the_records()
    ensures added { (sheets others : Sheets) → KeepsRuns sheets others → CanBeAdded sheets → CanBeAdded others }
    ensures records { (sheets others : Sheets) (trace : TraceId) (wholes : Pieces) → KeepsRuns sheets others
        → AreWholes (pieces_of trace sheets) wholes → AreWholes (pieces_of trace others) wholes }
{}

/// Pages collect the same in any order that keeps that of the pages of each client and trace, and that in which the traces were
/// first seen.
pub fn reordered_pages_collect_the_same()
    ensures { (sheets others : Sheets) (collection : Collection) → IsReordering sheets others
        → AreCollected sheets collection → AreCollected others collection }
{}
