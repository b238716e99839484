//! What a cursor comes by. The law is the contract of a function that does nothing.

ghost use Rattle.std.specs.Prelude.{◌≡◌, ℕ, List, take};
ghost use Rattle.hs_words.specs.Pages.{Sheet};
ghost use Rattle.hs_traces.specs.declared.key.PageKey.{PageKey};
ghost use Rattle.hs_traces.specs.Parts.{Pages};
ghost use Rattle.hs_cursor.specs.Rows.{rows_of};
ghost use Rattle.hs_cursor.specs.Walking.{start, walked, AreInOrder, AreSheets};

/// The steps of a cursor over a trace's pages answer their rows one by one in their order, each once, and then none.
pub fn rows_come_in_order()
    ensures { (pages : Pages) (sheets : List (PageKey × Sheet)) (steps : ℕ) → AreInOrder pages → AreSheets sheets pages
        → walked pages steps start ≡ take steps (rows_of sheets) }
{}
