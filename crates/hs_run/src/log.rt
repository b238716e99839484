//! What is counted of an agent's log.

ghost use Rattle.std.specs.Prelude.{◌≡◌, ◌^◌, ◌<◌, ◌≤◌, length, take, count_by};
ghost use Rattle.hs_run.specs.Progress.{is_chunk, is_given};
ghost use Rattle.hs_run.specs.Counts.{log_count};

use hs_records::Step;

/// Of a log: how many of its steps were counted, and among these the chunks that were taken and the buffers that were given.
#[derive(Clone, Copy)]
pub struct LogCount {
    pub steps: usize,
    pub taken: u32,
    pub given: u32,
}

impl LogCount {
    /// The count of the whole log: each step that was counted before is not looked at again.
    pub fn count(&self, log: &[Step]) -> LogCount
        requires within { self.now.steps ≤ length log.now }
        requires counted { self.now ≡ log_count (take self.now.steps log.now) }
        requires few { (count_by is_chunk log.now < 2 ^ 32) × (count_by is_given log.now < 2 ^ 32) }
        ensures { result ≡ log_count log.now }
    {
        LogCount {
            steps: log.len(),
            taken: taken_on(self.taken, log, self.steps),
            given: given_on(self.given, log, self.steps),
        }
    }
}

/// The chunks that were taken in all steps, where those of the first ones were counted.
fn taken_on(taken: u32, log: &[Step], from: usize) -> u32
    requires within { from ≤ length log.now }
    requires counted { taken ≡ count_by is_chunk (take from log.now) }
    requires few { count_by is_chunk log.now < 2 ^ 32 }
    ensures { result ≡ count_by is_chunk log.now }
{
    let mut taken = taken;
    for place in from..log.len() {
        if let Step::Chunk { .. } = log[place] {
            taken += 1;
        }
    }
    taken
}

/// The buffers that were given in all steps, where those of the first ones were counted.
fn given_on(given: u32, log: &[Step], from: usize) -> u32
    requires within { from ≤ length log.now }
    requires counted { given ≡ count_by is_given (take from log.now) }
    requires few { count_by is_given log.now < 2 ^ 32 }
    ensures { result ≡ count_by is_given log.now }
{
    let mut given = given;
    for place in from..log.len() {
        if let Step::Given { .. } = log[place] {
            given += 1;
        }
    }
    given
}
