//! The numbers of lines.

ghost use Rattle.hs_text.specs.Steps.{Gives};
ghost use Rattle.hs_text.specs.WordsLeft.{words_in};
ghost use Rattle.hs_journal.specs.Forward.{next_number, three_numbers};

use crate::refusal::JournalReason;
use hs_text::{Stop, Words, number_in};

/// The numbers behind the first word of a line, with 0 in the place of one that it does not have.
#[derive(Clone, Copy)]
pub struct Numbers {
    pub first: u64,
    pub second: u64,
    pub third: u64,
}

/// The number that the next word is; 0 where no word is left.
fn next_number(words: &mut Words<'_>) -> Result<u64, Stop<JournalReason>>
    ensures { Gives (λ n. (n, words_in words.new)) result (next_number (words_in words.old)) }
{
    match words.next() {
        None => Ok(0),
        Some(word) => number_in(word, JournalReason::Number),
    }
}

/// The numbers that the words behind the first are.
#[tactic(auto, unfolding(crate::specs::Forward::three_numbers))]
pub fn numbers_in(mut words: Words<'_>) -> Result<Numbers, Stop<JournalReason>>
    ensures { Gives (λ numbers. numbers) result (three_numbers (words_in words.entry)) }
{
    let first = next_number(&mut words)?;
    let second = next_number(&mut words)?;
    let third = next_number(&mut words)?;
    Ok(Numbers {
        first,
        second,
        third,
    })
}
