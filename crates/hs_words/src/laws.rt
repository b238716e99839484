//! Laws of pages. Each is the contract of a function that does nothing.

ghost use Rattle.std.specs.Prelude.{◌≡◌, ℕ, ◌≤◌, ◌≢◌, List, [], ◌++◌, Result, IfSome};
ghost use Rattle.std.specs.List.{AllByRecursion};
ghost use Rattle.hs_base.specs.declared.limits.TheConstants.{MAX_SIZE};
ghost use Rattle.hs_words.specs.declared.page.Header.{Header};
ghost use Rattle.hs_words.specs.declared.page.Page.{Page};
ghost use Rattle.hs_words.specs.declared.page.PageFault.{PageFault as Fault};
ghost use Rattle.hs_words.specs.Pages.{Piece, Sheet, FitsHeader, FitsPiece, IsPage, page_bytes};
ghost use Rattle.hs_words.specs.Chunks.{Contents, Writes};
ghost use Rattle.hs_words.specs.declared.page.PrefixFault.{PrefixFault as NoPrefix};
ghost use Rattle.hs_words.specs.Reading.{Answers, Gives, Spells};
ghost use Rattle.hs_words.specs.Shown.{ShowsPage, ShowsNothing, AnswersShown, GivesShown};

/// No two pages have the same bytes.
pub fn pages_have_bytes_of_their_own()
    ensures { (a b : Sheet) → IsPage a → IsPage b → page_bytes a ≡ page_bytes b → a ≡ b }
{}

/// What was written into a chunk and has a piece is read again as what was added, unless memory is refused.
pub fn what_was_added_is_read()
    ensures { (old new : Contents) (header : Header) (pieces : List Piece) (answer : Result Page Fault)
        → old.size ≤ MAX_SIZE → FitsHeader header → AllByRecursion FitsPiece pieces → pieces ≢ [] → Writes old header pieces new
        → IfSome new.page (λ sheet. Answers (page_bytes sheet) answer → Gives (record { header = header; pieces = pieces }) answer) }
{}

/// Bytes show one page at most, and none while they show nothing: so a reader of a buffer never mixes two pages.
pub fn bytes_show_one_page()
    ensures one { (bytes : List ℕ) (a b : Sheet) → ShowsPage bytes a → ShowsPage bytes b → a ≡ b }
    ensures none { (bytes : List ℕ) (sheet : Sheet) → ShowsNothing bytes → ShowsPage bytes sheet → ⊥ }
{}

/// The bytes of a page show it, whatever stands behind them. So `read_page` of the page's bytes and `read_prefix` of its
/// buffer give the same page, unless memory is refused.
pub fn finished_pages_are_shown()
    ensures shown { (sheet : Sheet) (bytes rest : List ℕ) → Spells sheet bytes → ShowsPage (bytes ++ rest) sheet }
    ensures same { (sheet : Sheet) (bytes rest : List ℕ) (read : Result Page Fault) (found : Result Page NoPrefix)
        → Spells sheet bytes → Answers bytes read → AnswersShown (bytes ++ rest) found → Gives sheet read × GivesShown sheet found }
{}
