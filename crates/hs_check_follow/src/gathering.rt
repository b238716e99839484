//! What was taken of a client so far.

ghost use Rattle.std.specs.Prelude.{◌≡◌, ◌<◌, ◌++◌, length, map, replicate, OnOk};
ghost use Rattle.hs_records.specs.Views.{operation_of};
ghost use Rattle.hs_check_follow.specs.Gathering.{IsNew, WasSent, SendsFirst, SendsOneMore, WasSentChunks, IsSentChunks, WasSentCrumbs, IsSentCrumbs, WasSentTriggers, IsSentTriggers};

use crate::found::FoundClient;
use crate::keeping::Keeping;
use crate::script::DrawScript;
use hs_base::{AutoRule, Crumb, List, Memory, Trigger};
use hs_client::sending_laws::{
    items_are_sent_in_order, the_first_chunks_are_sent, the_first_operations_send,
    timed_pages_are_the_pages, timed_pages_are_timely,
};
use hs_records::Op;
use hs_replay_client::ReplayClient;
use std::alloc::Global;
use std::collections::VecDeque;

/// The crumbs and triggers that a client sent with the operations that it has done, its chunks where they are kept, and which operations
/// all that it sent is of.
#[derive(Drop)]
pub(crate) struct Gathering {
    pub(crate) keeping: Keeping,
    pub(crate) crumbs: VecDeque<Crumb>,
    pub(crate) triggers: VecDeque<Trigger>,
    pub(crate) found: FoundClient,
}

impl Gathering {
    /// A gathering of a client that has sent nothing. Its chunks will be kept, or not.
    pub(crate) fn new(alloc: Global, keeps: bool) -> Gathering
        ensures { IsNew result }
    {
        Gathering {
            keeping: Keeping {
                keeps,
                chunks: VecDeque::new(alloc),
            },
            crumbs: VecDeque::new(alloc),
            triggers: VecDeque::new(alloc),
            found: FoundClient {
                started: List::new(alloc),
                chunks: List::new(alloc),
                crumbs: List::new(alloc),
                triggers: List::new(alloc),
            },
        }
    }

    /// The client, which has done nothing, does all its operations, and all that it sends is taken.
    pub(crate) fn gather_all(
        &mut self,
        rules: &[AutoRule],
        operations: &[Op],
        script: &mut DrawScript,
        player: &mut ReplayClient,
    ) -> Result<(), Memory>
        requires { WasSent rules.now (map operation_of operations.now) 0 script.old player.old self.old }
        ensures { OnOk result (SendsFirst rules.now (map operation_of operations.now) (length operations.now) script.old player.old self.old script.new player.new self.new) }
    {
        for number in 0..operations.len() {
            self.gather_operation(number, rules, operations, script, player)?;
        }
        Ok(())
    }

    /// The client does the operation of this number, and all that it sends with it joins what it sent before. Most operations send nothing.
    pub(crate) fn gather_operation(
        &mut self,
        number: usize,
        rules: &[AutoRule],
        operations: &[Op],
        script: &mut DrawScript,
        player: &mut ReplayClient,
    ) -> Result<(), Memory>
        requires number { number < length operations.now }
        requires sent { WasSent rules.now (map operation_of operations.now) number script.old player.old self.old }
        ensures { OnOk result (SendsOneMore rules.now (map operation_of operations.now) number script.old player.old self.old script.new player.new self.new) }
    {
        items_are_sent_in_order();
        timed_pages_are_the_pages();
        timed_pages_are_timely();
        the_first_operations_send();
        the_first_chunks_are_sent();
        let left = script.left.len();
        player.play_from(script, rules, operations, 1)?;
        let started = left - script.left.len();
        note_started(&mut self.found.started, number, started)?;
        if player.is_bare() {
            return Ok(());
        }
        take_chunks(&mut self.keeping, &mut self.found.chunks, number, player)?;
        take_crumbs(&mut self.crumbs, &mut self.found.crumbs, number, player)?;
        take_triggers(&mut self.triggers, &mut self.found.triggers, number, player)
    }
}

/// Notes that an operation started so many pages.
fn note_started(started: &mut List<usize>, number: usize, count: usize) -> Result<(), Memory>
    ensures { OnOk result (started.new.items ≡ started.old.items ++ replicate count number) }
{
    for noted in 0..count {
        started.append(number)?;
    }
    Ok(())
}

/// Takes the chunks that the operation of this number sent. They are kept where chunks are.
fn take_chunks(
    keeping: &mut Keeping,
    numbers: &mut List<usize>,
    number: usize,
    player: &mut ReplayClient,
) -> Result<(), Memory>
    requires { WasSentChunks number player.old keeping.old numbers.old.items }
    ensures { OnOk result (IsSentChunks number player.old keeping.old numbers.old.items player.new keeping.new numbers.new.items) }
{
    items_are_sent_in_order();
    while let Some(held) = player.next_chunk() {
        keeping.keep(held)?;
        numbers.append(number)?;
    }
    Ok(())
}

/// Takes the crumbs that the operation of this number sent.
fn take_crumbs(
    queue: &mut VecDeque<Crumb>,
    numbers: &mut List<usize>,
    number: usize,
    player: &mut ReplayClient,
) -> Result<(), Memory>
    requires { WasSentCrumbs number player.old queue.old.items numbers.old.items }
    ensures { OnOk result (IsSentCrumbs number player.old queue.old.items numbers.old.items player.new queue.new.items numbers.new.items) }
{
    items_are_sent_in_order();
    while let Some(crumb) = player.next_crumb() {
        queue.push_back(crumb)?;
        numbers.append(number)?;
    }
    Ok(())
}

/// Takes the triggers that the operation of this number sent.
fn take_triggers(
    queue: &mut VecDeque<Trigger>,
    numbers: &mut List<usize>,
    number: usize,
    player: &mut ReplayClient,
) -> Result<(), Memory>
    requires { WasSentTriggers number player.old queue.old.items numbers.old.items }
    ensures { OnOk result (IsSentTriggers number player.old queue.old.items numbers.old.items player.new queue.new.items numbers.new.items) }
{
    items_are_sent_in_order();
    while let Some(trigger) = player.next_trigger() {
        queue.push_back(trigger)?;
        numbers.append(number)?;
    }
    Ok(())
}
