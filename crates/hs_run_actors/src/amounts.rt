//! How much the operations of a client take.

ghost use Rattle.std.specs.Prelude.{◌≡◌, ◌≤◌, map};
ghost use Rattle.hs_base.specs.declared.limits.TheConstants.{MIN_SIZE, MAX_OPERATIONS};
ghost use Rattle.hs_records.specs.Validity.{operation_pieces, client_pieces};
ghost use Rattle.hs_records.specs.Views.{operation_of};
ghost use Rattle.hs_run_actors.specs.Counting.{crumbs_of, triggers_of, crumbs_in, triggers_in};

use hs_records::{Op, piece_count};

/// How many calls of the core, crumbs and triggers come of operations at most.
#[derive(Clone, Copy)]
pub(crate) struct Amounts {
    pub(crate) calls: u32,
    pub(crate) crumbs: u32,
    pub(crate) triggers: u32,
}

/// How many calls of a core the operations come to at most, where pages have this size: a point counts once for each of its
/// pieces. No more pages are drawn for.
pub fn calls_of(size: u32, operations: &[Op]) -> u32
    requires least { MIN_SIZE ≤ size }
    requires few { client_pieces size (map operation_of operations.now) ≤ MAX_OPERATIONS }
    ensures { result ≡ client_pieces size (map operation_of operations.now) }
{
    let mut calls = 0;
    for operation in operations {
        calls += calls_in(size, operation);
    }
    calls
}

/// The amounts of operations.
pub(crate) fn amounts_of(size: u32, operations: &[Op]) -> Amounts
    requires least { MIN_SIZE ≤ size }
    requires few { client_pieces size (map operation_of operations.now) ≤ MAX_OPERATIONS }
    ensures calls { result.calls ≡ client_pieces size (map operation_of operations.now) }
    ensures crumbs { result.crumbs ≡ crumbs_of (map operation_of operations.now) }
    ensures triggers { result.triggers ≡ triggers_of (map operation_of operations.now) }
    ensures fewer { (result.crumbs ≤ result.calls) × (result.triggers ≤ result.calls) }
{
    let mut amounts = Amounts {
        calls: calls_of(size, operations),
        crumbs: 0,
        triggers: 0,
    };
    for operation in operations {
        amounts.crumbs += crumbs_in(operation);
        amounts.triggers += triggers_in(operation);
    }
    amounts
}

/// How many calls of a core an operation comes to at most.
fn calls_in(size: u32, operation: &Op) -> u32
    requires least { MIN_SIZE ≤ size }
    requires few { operation_pieces size (operation_of operation.now) ≤ MAX_OPERATIONS }
    ensures { result ≡ operation_pieces size (operation_of operation.now) }
{
    match operation {
        Op::Point { payload, .. } => piece_count(size, payload.len()) as u32,
        _ => 1,
    }
}

/// How many crumbs an operation leaves.
fn crumbs_in(operation: &Op) -> u32
    ensures { result ≡ crumbs_in (operation_of operation.now) }
{
    match operation {
        Op::Crumb { .. } => 1,
        _ => 0,
    }
}

/// How many triggers an operation fires at most.
fn triggers_in(operation: &Op) -> u32
    ensures { result ≡ triggers_in (operation_of operation.now) }
{
    match operation {
        Op::Trigger { .. } | Op::Sample { .. } => 1,
        _ => 0,
    }
}
