//! The numbers of lines.

ghost use Rattle.std.specs.Prelude.{◌≡◌};
ghost use Rattle.hs_text.specs.Steps.{Gives};
ghost use Rattle.hs_text.specs.WordsLeft.{words_in};
ghost use Rattle.hs_settings.specs.Statements.{with_defaults};
ghost use Rattle.hs_settings.specs.Forward.{next_number, four_numbers};

use crate::refusal::SettingsReason;
use hs_text::{Stop, Words, number_in};

/// Numbers of a line in their order, with 0 in the place of one that it does not have.
#[derive(Clone, Copy)]
pub struct Numbers {
    pub first: u64,
    pub second: u64,
    pub third: u64,
    pub fourth: u64,
}

impl Numbers {
    /// The numbers of a `triggerid` line that has so many: an id alone has the rule that a line may leave out.
    pub fn with_defaults(self, count: usize) -> Numbers
        ensures { result ≡ with_defaults count self }
    {
        if count == 1 {
            return Numbers {
                first: self.first,
                second: 1,
                third: 10,
                fourth: 1,
            };
        }
        self
    }
}

/// The number that the next word is; 0 where no word is left.
fn next_number(words: &mut Words<'_>) -> Result<u64, Stop<SettingsReason>>
    ensures { Gives (λ n. (n, words_in words.new)) result (next_number (words_in words.old)) }
{
    match words.next() {
        None => Ok(0),
        Some(word) => number_in(word, SettingsReason::Number),
    }
}

/// The numbers that the words are.
#[tactic(auto, unfolding(crate::specs::Forward::four_numbers))]
pub fn numbers_in(mut words: Words<'_>) -> Result<Numbers, Stop<SettingsReason>>
    ensures { Gives (λ numbers. numbers) result (four_numbers (words_in words.entry)) }
{
    let first = next_number(&mut words)?;
    let second = next_number(&mut words)?;
    let third = next_number(&mut words)?;
    let fourth = next_number(&mut words)?;
    Ok(Numbers {
        first,
        second,
        third,
        fourth,
    })
}
