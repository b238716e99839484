//! An input with two parts: a workload, and behind it a journal.

ghost use Rattle.std.specs.Prelude.{◌≡◌, ◌+◌, ◌≤◌, length, take, drop};
ghost use Rattle.hs_check.specs.Parts.{part_through, workload_part, journal_part};

use hs_text::split_line;

/// How many bytes the two parts of an input have. What stands behind them belongs to neither.
#[derive(Clone, Copy)]
pub struct Split {
    pub workload: usize,
    pub journal: usize,
}

/// How many bytes a text has through its first line that is this one; all of them if there is none.
fn length_through(text: &[u8], word: &[u8]) -> usize
    ensures within { result ≤ length text.now }
    ensures part { take result text.now ≡ part_through word.now text.now }
{
    let mut rest = text;
    while let Some((line, behind)) = split_line(rest) {
        rest = behind;
        if line == word {
            return text.len() - rest.len();
        }
    }
    text.len()
}

/// The parts of an input: a workload, up to and with the first line `done`, and a journal, which goes on up to and with the
/// next line `end`. A part whose last line is missing goes on to the end of the input.
pub fn split_input(text: &[u8]) -> Split
    ensures within { result.workload + result.journal ≤ length text.now }
    ensures workload { take result.workload text.now ≡ workload_part text.now }
    ensures journal { take result.journal (drop result.workload text.now) ≡ journal_part text.now }
{
    let workload = length_through(text, b"done");
    let journal = length_through(&text[workload..], b"end");
    Split { workload, journal }
}
