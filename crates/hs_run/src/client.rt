//! What is counted of a client.

ghost use Rattle.std.specs.Prelude.{◌≡◌, ◌<◌, ◌≤◌, length, map, take, count_by};
ghost use Rattle.hs_base.specs.declared.limits.TheConstants.{MAX_OPERATIONS};
ghost use Rattle.hs_run.specs.Progress.{is_point};
ghost use Rattle.hs_records.specs.Views.{operation_of};
ghost use Rattle.hs_run.specs.Counts.{client_count};

use hs_records::Op;
use hs_run_actors::ClientActor;

/// Of a client: how many of its operations were counted, the points among these, and its null pages.
#[derive(Clone, Copy)]
pub struct ClientCount {
    pub done: usize,
    pub points: u32,
    pub nulls: u32,
}

impl ClientCount {
    /// The count when the client stands where it stands, whose operations are these: each that was counted before is not looked at again.
    pub fn count(&self, operations: &[Op], caller: &ClientActor) -> ClientCount
        requires few { length operations.now ≤ MAX_OPERATIONS }
        requires within { (self.now.done ≤ caller.now.done) × (caller.now.done ≤ length operations.now) }
        requires points { self.now.points ≡ count_by is_point (take self.now.done (map operation_of operations.now)) }
        ensures { result ≡ client_count (map operation_of operations.now) caller.now }
    {
        let done = caller.done();
        ClientCount {
            done,
            points: points_on(self.points, operations, self.done, done),
            nulls: caller.nulls(),
        }
    }
}

/// The points among the operations up to a place, where those up to an earlier one were counted.
fn points_on(points: u32, operations: &[Op], from: usize, to: usize) -> u32
    requires few { length operations.now ≤ MAX_OPERATIONS }
    requires within { (from ≤ to) × (to ≤ length operations.now) }
    requires points { points ≡ count_by is_point (take from (map operation_of operations.now)) }
    ensures { result ≡ count_by is_point (take to (map operation_of operations.now)) }
{
    let mut points = points;
    for place in from..to {
        if is_record(&operations[place]) {
            points += 1;
        }
    }
    points
}

/// Whether the operation is a point.
fn is_record(operation: &Op) -> bool
    ensures { result ≡ is_point (operation_of operation.now) }
{
    match operation {
        Op::Point { .. } => true,
        _ => false,
    }
}
