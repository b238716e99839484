//! The events of a client, operation by operation.

ghost use Rattle.std.specs.Prelude.{◌≡◌, ◌≤◌, ◌<◌, ◌+◌, ◌++◌, ◌∷◌, [], length, map, drop, IfOk, OnOk};
ghost use Rattle.hs_records.specs.Views.{operation_of};
ghost use Rattle.hs_compare.specs.declared.happening.NumberedEvent.{NumberedEvent};
ghost use Rattle.hs_compare.specs.Points.{Operations, HasGone, HasScript, IsScriptOf, brought, comes_in};
ghost use Rattle.hs_compare.specs.Walking.{AreInTurn, AreLeft, events_in, run_of, rest_of, rings_after};

use crate::happening::{NumberedEvent, ScriptEvent};
use crate::points::RecordWalk;
use crate::ring_tail::RingTail;
use hs_base::limits::MAX_OPERATIONS;
use hs_base::{ClientId, List, Memory};
use hs_client::sending_laws::one_operation_more;
use hs_records::Op;
use std::alloc::Global;

/// The events of a client in the order of its operations, and how many there are before each operation and at the
/// end.
#[derive(Drop)]
pub(crate) struct Script {
    pub(crate) events: List<ScriptEvent>,
    pub(crate) ends: List<usize>,
}

/// Appends the events of an operation, from the happening at this place on, and answers the place behind them.
fn take_at(
    events: &mut List<ScriptEvent>,
    happenings: &[NumberedEvent],
    from: usize,
    number: usize,
) -> Result<usize, Memory>
    ensures events { OnOk result (events.new.items ≡ events.old.items ++ events_in (run_of number (drop from happenings.now))) }
    ensures rest { IfOk result (λ next. drop next happenings.now ≡ rest_of number (drop from happenings.now)) }
{
    let mut next = from;
    while next < happenings.len() && happenings[next].number == number {
        events.append(happenings[next].event)?;
        next += 1;
    }
    Ok(next)
}

/// Goes on by an operation. The record that it brings comes next.
fn note_record(
    events: &mut List<ScriptEvent>,
    walk: &mut RecordWalk,
    operation: &Op,
) -> Result<(), Memory>
    requires few { walk.old.count < MAX_OPERATIONS }
    ensures client { walk.new.client ≡ walk.old.client }
    ensures gone { (before : Operations) → HasGone before walk.old → HasGone (before ++ operation_of operation.now ∷ []) walk.new }
    ensures comes { (before : Operations) → HasGone before walk.old
        → OnOk result (events.new.items ≡ events.old.items ++ comes_in (brought walk.old.client before (operation_of operation.now))) }
{
    match walk.advance(operation) {
        Some(coming) => events.append(ScriptEvent::Comes {
            id: coming.id,
            trace: coming.trace,
        }),
        None => Ok(()),
    }
}

/// Goes on by the operation of this number: its record comes, and then what it names is named, which stands next among the names.
/// Answers how many of these were taken then.
fn take_operation(
    script: &mut Script,
    walk: &mut RecordWalk,
    names: &[NumberedEvent],
    taken: usize,
    number: usize,
    operation: &Op,
) -> Result<usize, Memory>
    requires few { walk.old.count < MAX_OPERATIONS }
    requires names { AreLeft names.now (drop taken names.now) number }
    ensures client { OnOk result (walk.new.client ≡ walk.old.client) }
    ensures script { (before : Operations) → length before ≡ number → HasScript names.now before walk.old script.old
        → OnOk result (HasScript names.now (before ++ operation_of operation.now ∷ []) walk.new script.new) }
    ensures names { IfOk result (λ next. AreLeft names.now (drop next names.now) (number + 1)) }
{
    one_operation_more();
    note_record(&mut script.events, walk, operation)?;
    let next = take_at(&mut script.events, names, taken, number)?;
    script.ends.append(script.events.len())?;
    Ok(next)
}

/// The script of a client with these operations, in which these traces are named.
pub(crate) fn script_of(
    alloc: Global,
    client: ClientId,
    operations: &[Op],
    names: &[NumberedEvent],
) -> Result<Script, Memory>
    requires few { length operations.now ≤ MAX_OPERATIONS }
    requires names { AreInTurn 0 names.now }
    ensures { IfOk result (IsScriptOf client names.now (map operation_of operations.now)) }
{
    let mut script = Script {
        events: List::new(alloc),
        ends: List::new(alloc),
    };
    script.ends.append(0)?;
    let mut walk = RecordWalk::make(client);
    let mut taken = 0;
    for number in 0..operations.len() {
        let operation = &operations[number];
        taken = take_operation(&mut script, &mut walk, names, taken, number, operation)?;
    }
    Ok(script)
}

/// Takes a ring through these events.
pub(crate) fn go_through(ring: &mut RingTail, events: &[ScriptEvent]) -> Result<(), Memory>
    ensures { OnOk result (ring.new ≡ rings_after ring.old events.now) }
{
    for event in events {
        match *event {
            ScriptEvent::Comes { id, trace } => ring.note(id, trace)?,
            ScriptEvent::Names { trace } => ring.name(trace)?,
        }
    }
    Ok(())
}
