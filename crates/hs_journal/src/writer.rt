//! Writing a journal.

ghost use Rattle.std.specs.Prelude.{◌≡◌, ◌<◌, ◌+◌, ◌*◌, ◌≤◌, ◌++◌, ◌∷◌, [], map, sum, length, IfOk, OnOk};
ghost use Rattle.hs_base.specs.declared.limits.TheConstants.{MAX_NODES, MAX_CLIENTS};
ghost use Rattle.hs_records.specs.Journals.{journal_of, HasItsLists};
ghost use Rattle.hs_journal.specs.Statements.{statement_line, draw_statement, step_statement, told_statement};
ghost use Rattle.hs_journal.specs.Grammar.{draw_statements, log_statements, statements_text, journal_text};

use crate::word::Keyword;
use hs_base::{Bytes, List, Memory, NodeId};
use hs_records::{Draw, Journal, Step};
use hs_text::{Spelled, end_line, push_spaced_numbers};
use std::alloc::Global;

/// Appends a line of this word and these numbers.
#[inline(always)]
fn push_line(out: &mut Vec<u8>, keyword: Keyword, numbers: &[u64]) -> Result<(), Memory>
    ensures { OnOk result (out.new.items ≡ out.old.items ++ (statement_line (record { keyword = keyword; numbers = numbers.now }) ++ 10 ∷ [])) }
{
    out.extend_from_slice(keyword.text())?;
    push_spaced_numbers(out, numbers)?;
    end_line(out)?;
    Ok(())
}

/// Appends the line of a draw.
fn push_draw(out: &mut Vec<u8>, draw: Draw) -> Result<(), Memory>
    ensures { OnOk result (out.new.items ≡ out.old.items ++ (statement_line (draw_statement draw) ++ 10 ∷ [])) }
{
    match draw {
        Draw::Got { buffer, stamp } => push_line(out, Keyword::Got, &[u64::from(buffer), stamp]),
        Draw::Empty { stamp } => push_line(out, Keyword::Empty, &[stamp]),
    }
}

/// Appends the line of a step.
fn push_step(out: &mut Vec<u8>, step: Step) -> Result<(), Memory>
    ensures { OnOk result (out.new.items ≡ out.old.items ++ (statement_line (step_statement step) ++ 10 ∷ [])) }
{
    match step {
        Step::Chunk { client } => push_line(out, Keyword::Chunk, &[u64::from(client)]),
        Step::Crumb { client } => push_line(out, Keyword::Crumb, &[u64::from(client)]),
        Step::Trigger { client } => push_line(out, Keyword::Trigger, &[u64::from(client)]),
        Step::Ask => push_line(out, Keyword::Ask, &[]),
        Step::Turn => push_line(out, Keyword::Turn, &[]),
        Step::Given { stamp } => push_line(out, Keyword::Given, &[stamp]),
        Step::Missed { stamp } => push_line(out, Keyword::Missed, &[stamp]),
        Step::Unread => push_line(out, Keyword::Unread, &[]),
    }
}

/// Appends a client's draws.
fn push_draws(out: &mut Vec<u8>, draws: &[Draw]) -> Result<(), Memory>
    ensures { OnOk result (out.new.items ≡ out.old.items ++ statements_text (map draw_statement draws.now)) }
{
    for draw in draws {
        push_draw(out, *draw)?;
    }
    Ok(())
}

/// Appends the draws of all clients, where each node has so many.
fn push_clients(out: &mut Vec<u8>, clients: u16, lists: &[List<Draw>]) -> Result<(), Memory>
    requires some { 0 < clients }
    requires few { length lists.now ≤ MAX_NODES * MAX_CLIENTS }
    ensures { OnOk result (out.new.items ≡ out.old.items
        ++ statements_text (draw_statements clients 0 (map (λ draws. draws.items) lists.now))) }
{
    let clients = u64::from(clients);
    let mut client: u64 = 0;
    for draws in lists {
        push_line(out, Keyword::Draws, &[client / clients, client % clients])?;
        push_draws(out, draws.as_slice())?;
        client += 1;
    }
    Ok(())
}

/// Appends an agent's steps.
fn push_steps(out: &mut Vec<u8>, steps: &[Step]) -> Result<(), Memory>
    ensures { OnOk result (out.new.items ≡ out.old.items ++ statements_text (map step_statement steps.now)) }
{
    for step in steps {
        push_step(out, *step)?;
    }
    Ok(())
}

/// Appends the logs of all nodes.
fn push_logs(out: &mut Vec<u8>, logs: &[List<Step>]) -> Result<(), Memory>
    requires { length logs.now ≤ MAX_NODES }
    ensures { OnOk result (out.new.items ≡ out.old.items
        ++ statements_text (log_statements 0 (map (λ log. log.items) logs.now))) }
{
    let mut node: u64 = 0;
    for log in logs {
        push_line(out, Keyword::Log, &[node])?;
        push_steps(out, log.as_slice())?;
        node += 1;
    }
    Ok(())
}

/// Appends the messages that the coordinator took.
fn push_told(out: &mut Vec<u8>, told: &[NodeId]) -> Result<(), Memory>
    ensures { OnOk result (out.new.items ≡ out.old.items ++ statements_text (map told_statement told.now)) }
{
    for node in told {
        push_line(out, Keyword::Told, &[u64::from(node.0)])?;
    }
    Ok(())
}

/// About how many bytes the line of a draw has, that of a step and that of a message.
const DRAW_ROOM: usize = 16;

const STEP_ROOM: usize = 12;

const TOLD_ROOM: usize = 8;

/// About how many bytes the text of a journal has: at most so many for each draw, each step and each message.
fn room_for(journal: &Journal) -> usize
    ensures { result ≤ length journal.now.told.items * TOLD_ROOM + (sum (map (λ draws. length draws.items) journal.now.draws.items) * DRAW_ROOM
        + sum (map (λ log. length log.items) journal.now.logs.items) * STEP_ROOM) }
{
    let mut room = journal.told.len().saturating_mul(TOLD_ROOM);
    for draws in journal.draws.as_slice() {
        room = room.saturating_add(draws.len().saturating_mul(DRAW_ROOM));
    }
    for log in journal.logs.as_slice() {
        room = room.saturating_add(log.len().saturating_mul(STEP_ROOM));
    }
    room
}

/// The text of a journal that has its lists (`docs/FORMATS.md`, "The journal"). It reads as the journal where all
/// numbers of that are in their ranges too.
pub fn write_journal(alloc: Global, journal: &Journal) -> Result<Bytes, Memory>
    requires { HasItsLists (journal_of journal.now) }
    ensures { IfOk result (λ text. text.items ≡ journal_text (journal_of journal.now)) }
{
    let mut out = Vec::with_capacity(alloc, room_for(journal))?;
    let nodes = u64::from(journal.nodes);
    let clients = u64::from(journal.clients);
    push_line(&mut out, Keyword::Journal, &[1, nodes, clients])?;
    push_clients(&mut out, journal.clients, journal.draws.as_slice())?;
    push_logs(&mut out, journal.logs.as_slice())?;
    push_line(&mut out, Keyword::Coordinator, &[])?;
    push_told(&mut out, journal.told.as_slice())?;
    push_line(&mut out, Keyword::End, &[])?;
    Ok(List::from_vec(out))
}
