//! Words of a fixed list, each with its text.

ghost use Rattle.std.specs.Prelude.{◌≡◌, ◌↔◌, List, ℕ, Some};
ghost use Rattle.hs_text.specs.Spelling.{spelled};

/// A word of a fixed list. Each has a text of its own.
pub trait Spelled: Copy + 'static {
    /// The text of each word, for clauses.
    ghost spelling: { Self → List ℕ };

    /// All words of the list, for clauses.
    ghost every: { List Self };

    /// The text of the word.
    fn text(self) -> &'static [u8]
        ensures { result.now ≡ spelling self };

    /// All words of the list.
    fn all() -> &'static [Self]
        ensures { result.now ≡ every };

    /// Each word is found by its text.
    ghost told_apart: { (w : Self) → spelled spelling every (spelling w) ≡ Some w };
}

/// The word whose text this is, or `None` where it is the text of none.
#[tactic(auto, unfolding(crate::specs::Spelling::spelled))]
pub fn spelled_word<W: Spelled>(word: &[u8]) -> Option<W>
    ensures value { result ≡ spelled W.spelling W.every word.now }
    ensures exact { (w : W) → (result ≡ Some w) ↔ (word.now ≡ W.spelling w) }
{
    for known in W::all() {
        if word == known.text() {
            return Some(*known);
        }
    }
    None
}
