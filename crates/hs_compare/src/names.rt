//! The traces that a client's triggers name.

ghost use Rattle.std.specs.Prelude.{◌≡◌, ◌++◌, length, OnOk, IfOk};
ghost use Rattle.hs_compare.specs.Happens.{name_at, names_at, names_by};

use crate::happening::{NumberedEvent, ScriptEvent};
use hs_base::{List, Memory, TraceId, Trigger};
use std::alloc::Global;
use std::collections::VecDeque;

/// The naming of a trace in an operation.
fn naming(number: usize, trace: TraceId) -> NumberedEvent
    ensures { result ≡ name_at number trace }
{
    NumberedEvent {
        number,
        event: ScriptEvent::Names { trace },
    }
}

/// Appends the names of a trigger: its lead, and then its laterals.
fn add_names(
    names: &mut List<NumberedEvent>,
    number: usize,
    trigger: &Trigger,
) -> Result<(), Memory>
    ensures { OnOk result (names.new.items ≡ names.old.items ++ names_at number trigger.now) }
{
    names.append(naming(number, trigger.lead))?;
    for place in 0..trigger.laterals.len() {
        if let Some(trace) = trigger.laterals.get(place) {
            names.append(naming(number, trace))?;
        }
    }
    Ok(())
}

/// The names of these triggers, each of the operation beside it.
pub(crate) fn names_of(
    alloc: Global,
    mut triggers: VecDeque<Trigger>,
    numbers: &[usize],
) -> Result<List<NumberedEvent>, Memory>
    requires { length triggers.items ≡ length numbers.now }
    ensures { IfOk result (λ names. names.items ≡ names_by numbers.now triggers.items) }
{
    let mut names = List::new(alloc);
    for number in numbers {
        if let Some(trigger) = triggers.pop_front() {
            add_names(&mut names, *number, &trigger)?;
        }
    }
    Ok(names)
}
