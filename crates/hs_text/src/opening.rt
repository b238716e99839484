//! The first word of a line.

ghost use Rattle.std.specs.Prelude.{◌≡◌, true, None};
ghost use Rattle.hs_text.specs.Steps.{Gives};
ghost use Rattle.hs_text.specs.Spelling.{spelled};
ghost use Rattle.hs_text.specs.WordsLeft.{words_in};
ghost use Rattle.hs_text.specs.Opening.{opened};
ghost use Rattle.hs_text.specs.LineFaults.{line_fault_of};

use crate::reading::{LineFault, line_fault};
use crate::spelled::{Spelled, spelled_word};
use crate::stop::Stop;
use crate::words::Words;

/// The reasons for which a line is refused before its words are looked at, and for its first word.
#[derive(Clone, Copy)]
pub struct LineReasons<R> {
    /// A byte does not print.
    pub byte: R,
    /// A word is empty.
    pub spaces: R,
    /// The first word is none of the list.
    pub word: R,
}

/// The first word of a line, one of the list, and the words behind it. Where the line was seen to have no fault by itself, its bytes
/// and spaces are not looked at again.
#[tactic(auto, unfolding(crate::specs::Opening::opened))]
pub fn open_seen_line<W: Spelled, R: Copy>(
    line: &[u8],
    is_seen: bool,
    reasons: LineReasons<R>,
) -> Result<(W, Words<'_>), Stop<R>>
    requires { is_seen ≡ true → line_fault_of line.now ≡ None }
    ensures { Gives (λ found. (found.0, words_in found.1)) result
        (opened reasons (spelled W.spelling W.every) line.now) }
{
    if !is_seen {
        match line_fault(line) {
            Some(LineFault::Byte) => return Err(Stop::Fault(reasons.byte)),
            Some(LineFault::Spaces) => return Err(Stop::Fault(reasons.spaces)),
            None => {}
        }
    }
    let mut words = Words::of(line);
    let word = words.take(reasons.word)?;
    match spelled_word(word) {
        Some(found) => Ok((found, words)),
        None => Err(Stop::Fault(reasons.word)),
    }
}
