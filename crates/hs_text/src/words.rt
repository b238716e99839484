//! The words of a line, taken one after another, and what each says.

ghost use Rattle.std.specs.Prelude.{◌≡◌, ◌≤◌, ◌∷◌, [], length, MatchOption, IfOk, IfSome, IsTrue};
ghost use Rattle.hs_text.specs.Text.{words_of, number_of, hex_of, is_payload};
ghost use Rattle.hs_text.specs.Steps.{Gives, value_or};
ghost use Rattle.hs_text.specs.WordsLeft.{words_in, next_word, last_word, no_word, payload_size};

use crate::reading::{
    count_words, hex_number, is_one_word, is_payload, number, payload_len, split_word,
};
use crate::stop::Stop;

/// The words of a line that were not taken yet.
#[derive(Clone, Copy)]
pub struct Words<'a> {
    rest: Option<&'a [u8]>,
}

impl<'a> Words<'a> {
    /// All words of a line.
    pub fn of(line: &'a [u8]) -> Words<'a>
        ensures { words_in result ≡ words_of line.now }
    {
        Words { rest: Some(line) }
    }

    /// How many words of the line are left.
    pub fn count(&self) -> usize
        ensures { result ≡ length (words_in self.now) }
    {
        match self.rest {
            Some(rest) => count_words(rest),
            None => 0,
        }
    }

    /// Takes the next word, where one is left.
    pub fn next(&mut self) -> Option<&'a [u8]>
        ensures { MatchOption result ((words_in self.old ≡ []) × (words_in self.new ≡ []))
            (λ word. words_in self.old ≡ word.now ∷ words_in self.new) }
    {
        let (word, rest) = split_word(self.rest?);
        self.rest = rest;
        Some(word)
    }

    /// Takes the next word, which this reason says is missing where none is left.
    pub fn take<R: Copy>(&mut self, missing: R) -> Result<&'a [u8], Stop<R>>
        ensures { Gives (λ word. (word.now, words_in self.new)) result (next_word missing (words_in self.old)) }
    {
        match self.next() {
            Some(word) => Ok(word),
            None => Err(Stop::Fault(missing)),
        }
    }

    /// The one word that is left.
    #[tactic(auto, using(crate::proofs::WordLemmas::last_words))]
    pub fn last<R: Copy>(mut self, wrong: R) -> Result<&'a [u8], Stop<R>>
        ensures { Gives (λ word. word.now) result (last_word wrong (words_in self.entry)) }
    {
        if let Some(rest) = self.rest
            && is_one_word(rest)
        {
            return Ok(rest);
        }
        let word = self.take(wrong)?;
        match self.rest {
            None => Ok(word),
            Some(_) => Err(Stop::Fault(wrong)),
        }
    }

    /// The one word that is left, and how many bytes it has where it is a payload.
    #[tactic(auto, using(crate::proofs::WordLemmas::payload_word))]
    pub fn last_payload<R: Copy>(self, wrong: R) -> Result<(&'a [u8], Option<usize>), Stop<R>>
        ensures word { Gives (λ found. found.0.now) result (last_word wrong (words_in self.entry)) }
        ensures size { IfOk result (λ found. found.1 ≡ payload_size found.0.now) }
        ensures payload { IfOk result (λ found. IfSome found.1 (λ _. IsTrue (is_payload found.0.now))) }
    {
        if let Some(rest) = self.rest
            && is_payload(rest)
        {
            return Ok((rest, Some(payload_len(rest))));
        }
        let word = self.last(wrong)?;
        if is_payload(word) {
            return Ok((word, Some(payload_len(word))));
        }
        Ok((word, None))
    }

    /// Answers that no word is left, or the reason that one too many is there.
    #[tactic(auto, using(crate::proofs::WordLemmas::no_word_many))]
    pub fn end<R: Copy>(self, extra: R) -> Result<(), Stop<R>>
        ensures { Gives (λ _. tt) result (no_word extra (words_in self.entry)) }
    {
        match self.rest {
            None => Ok(()),
            Some(_) => Err(Stop::Fault(extra)),
        }
    }
}

/// The number that a word is.
pub fn number_in<R: Copy>(word: &[u8], wrong: R) -> Result<u64, Stop<R>>
    ensures { Gives (λ n. n) result (value_or wrong (number_of word.now)) }
{
    match number(word) {
        Some(value) => Ok(value),
        None => Err(Stop::Fault(wrong)),
    }
}

/// The number that a word of so many hexadecimal digits is.
pub fn hex_in<R: Copy>(word: &[u8], digits: u32, wrong: R) -> Result<u128, Stop<R>>
    requires { digits ≤ 32 }
    ensures { Gives (λ n. n) result (value_or wrong (hex_of digits word.now)) }
{
    match hex_number(word, digits) {
        Some(value) => Ok(value),
        None => Err(Stop::Fault(wrong)),
    }
}
