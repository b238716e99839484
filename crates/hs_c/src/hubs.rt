//! The calls of a hub.

ghost use Rattle.std.specs.Prelude.{◌≡◌, ◌≢◌, slice_get, option_map, Ok, OnOk, OnErr};
ghost use Rattle.hs_wire.specs.Messages.{PlainMessage, IsMessage, message_bytes};
ghost use Rattle.hs_hub.specs.declared.answers.Delivered.{Delivered};
ghost use Rattle.hs_cursor.specs.CursorLayout.{plain as plain_row};
ghost use Rattle.hs_cursor.specs.Walking.{start};
ghost use Rattle.hs_hub.specs.Hub.{IsDelivered, after_pass, after_take, after_saved, after_named, answer_to_take, is_whole_out, part_out, claim_out as claim_at_place, life_out as life_of};
ghost use Rattle.hs_c.specs.declared.codes.TheConstants.{DONE as done, BUSY as busy, MEMORY as memory, SETTINGS as settings, NO_MESSAGE as no_message};
ghost use Rattle.hs_settings.specs.Faults.{reading_of};
ghost use Rattle.hs_settings.specs.Settings.{service_of, IsServiceSettings};
ghost use Rattle.hs_c.specs.Messages.{SpellsNone};
ghost use Rattle.hs_c.specs.Opening.{IsRefused};
ghost use Rattle.hs_c.specs.Hubs.{IsIdleHub, Does, DoesAll, OpensHub, HoldsHub, Writes, claim_out, claim_in, lateral_at, life_id_out, ShowsRow, row_out, with_front, delivered_code, NamesTrace, NamesMessage, SendsAsk, SaysOfNode, SaysOfLife, node_number, lost_out, life_out, flag, counts_in};

use crate::cells::HubCell;
use crate::codes::{
    BUSY, DONE, FULL, HELD, MEMORY, NO_MESSAGE, NOTHING, SETTINGS, SHORT, UNFIT, VACANT,
};
use crate::handles::{HindFault, HindHub, HindTrace};
use crate::loose::Loose;
use crate::opening::{no_room, refusal_out};
use crate::slots::HubSlot;
use hs_base::{Ask, Memory, NodeId, TraceId};
use hs_cursor::{Cursor, Row};
use hs_hub::{Delivered, Hub, MakeFault};
use hs_settings::{ServiceSettings, SettingsFault, read_settings};
use hs_standings::Life;
use hs_verdict::{LifeWord, NodeWord};
use hs_wire::{Losses, WriteFault};
use std::alloc::Global;
use std::mem::replace;

/// A message of a node: the node, the epoch of the life that sent it, and its number there.
#[repr(C)]
#[derive(Clone, Copy)]
pub struct HindMessageId {
    pub node: u16,
    pub epoch: u64,
    pub number: u64,
}

/// How much a hub holds.
#[repr(C)]
#[derive(Clone, Copy)]
pub struct HindHubCounts {
    pub passes: u64,
    pub groups: u64,
    pub traces: u64,
    pub bytes: u64,
    pub standings: u64,
    pub messages: u64,
}

/// What a life of a node said last of a trace: a word, and what belongs to it, else 0. Words: 1 whole since a horizon, 2 lost, with counts, 3
/// unheard since a horizon, 4 unknown, 5 so many segments are open, 6 it said nothing.
#[repr(C)]
#[derive(Clone, Copy)]
pub struct HindLife {
    pub word: u32,
    pub open_segments: u32,
    pub horizon: u64,
    pub null_pages: u64,
    pub full_points: u64,
    pub dry_points: u64,
    pub long_points: u64,
    pub refused_crumbs: u64,
    pub evicted_crumbs: u64,
    pub forgotten_crumbs: u64,
    pub evicted_pages: u64,
    pub abandoned_pages: u64,
}

/// What is written of a life where no trace is out or the life said nothing: all counts are 0.
const NO_LIFE: HindLife = HindLife {
    word: 0,
    open_segments: 0,
    horizon: 0,
    null_pages: 0,
    full_points: 0,
    dry_points: 0,
    long_points: 0,
    refused_crumbs: 0,
    evicted_crumbs: 0,
    forgotten_crumbs: 0,
    evicted_pages: 0,
    abandoned_pages: 0,
};

/// A row, which is a piece of a record: where its page stands among those of the trace, the record's number among those of the core, its
/// moment, how many bytes its payload has, 1 where it goes on with the record of the row before, and how many pages of the core lie in front
/// that are not here, and how many numbers of records.
#[repr(C)]
#[derive(Clone, Copy)]
pub struct HindRow {
    pub node: u16,
    pub client: u16,
    pub page: u32,
    pub epoch: u64,
    pub core: u64,
    pub number: u64,
    pub moment: u64,
    pub missing_pages: u64,
    pub missing_records: u64,
    pub len: u64,
    pub continues: u32,
}

/// A row as C sees it, without its payload.
fn row_out(row: &Row<'_>) -> HindRow
    ensures { result ≡ row_out (plain_row row.now) }
{
    HindRow {
        node: row.page.node,
        client: row.page.client,
        page: row.page.page,
        epoch: row.page.epoch,
        core: row.page.core,
        number: row.number,
        moment: row.moment,
        missing_pages: row.missing_pages,
        missing_records: row.missing_records,
        len: row.payload.len() as u64,
        continues: u32::from(row.continues),
    }
}

impl HubCell {
    /// Shows the next row of the trace that is out.
    fn show_row(&mut self, row: &mut HindRow, out: &mut [u8]) -> u32
        ensures { ShowsRow out.old row.old out.new row.new self.old result self.new }
    {
        match self.hub.next_row(&mut self.cursor) {
            Some(found) => {
                *row = row_out(&found);
                copy_front(out, found.payload);
                DONE
            }
            None => NOTHING,
        }
    }
}

/// A group that claims a trace: the node that admitted its trigger, the trigger's number there, its id, the lead, and how many laterals it
/// claims beside.
#[repr(C)]
#[derive(Clone, Copy)]
pub struct HindClaim {
    pub lead: HindTrace,
    pub number: u32,
    pub trigger: u32,
    pub node: u16,
    pub laterals: u32,
}

/// A life of a node: the node, and its epoch.
#[repr(C)]
#[derive(Clone, Copy)]
pub struct HindLifeId {
    pub epoch: u64,
    pub node: u16,
}

/// A group that claims the trace that is out, as C sees it.
fn claim_out(ask: &Ask) -> HindClaim
    ensures { result ≡ claim_out ask.now }
{
    HindClaim {
        lead: HindTrace {
            bytes: ask.group.lead.0.to_be_bytes(),
        },
        number: ask.group.id.number,
        trigger: u32::from(ask.group.trigger.0),
        node: ask.group.id.node,
        laterals: ask.laterals.len(),
    }
}

/// The number of a word on a node.
fn node_number(word: NodeWord) -> u32
    ensures { result ≡ node_number word }
{
    match word {
        NodeWord::NotAsked => 1,
        NodeWord::Answered => 2,
        NodeWord::Silent => 3,
    }
}

/// What was lost, as C sees it.
fn lost_out(losses: &Losses) -> HindLife
    ensures { result ≡ lost_out losses.now }
{
    HindLife {
        word: 2,
        null_pages: losses.null_pages,
        full_points: losses.full_points,
        dry_points: losses.dry_points,
        long_points: losses.long_points,
        refused_crumbs: losses.refused_crumbs,
        evicted_crumbs: losses.evicted_crumbs,
        forgotten_crumbs: losses.forgotten_crumbs,
        evicted_pages: losses.evicted_pages,
        abandoned_pages: losses.abandoned_pages,
        ..NO_LIFE
    }
}

/// A word on a life, as C sees it.
fn life_out(word: &LifeWord) -> HindLife
    ensures { result ≡ life_out word.now }
{
    match word {
        LifeWord::WholeSince(horizon) => HindLife {
            word: 1,
            horizon: *horizon,
            ..NO_LIFE
        },
        LifeWord::Lost(losses) => lost_out(losses),
        LifeWord::UnheardSince(horizon) => HindLife {
            word: 3,
            horizon: *horizon,
            ..NO_LIFE
        },
        LifeWord::Unknown => HindLife { word: 4, ..NO_LIFE },
        LifeWord::Open(segments) => HindLife {
            word: 5,
            open_segments: *segments,
            ..NO_LIFE
        },
        LifeWord::Silent => HindLife { word: 6, ..NO_LIFE },
    }
}

/// The code of what became of a message.
fn code_of_delivered(delivered: Delivered) -> u32
    ensures { result ≡ delivered_code delivered }
{
    match delivered {
        Delivered::Done => DONE,
        Delivered::Held => HELD,
        Delivered::Refused => NO_MESSAGE,
        Delivered::Full => FULL,
    }
}

/// Makes a hub by the text of a service's settings. It speaks in the life of this epoch, and is fresh unless that word is 0. The code says
/// why there is none, and of settings `fault` says where.
#[unsafe(no_mangle)]
pub extern "C" fn hindcore_hub_open(
    alloc: Global,
    text: &[u8],
    epoch: u64,
    is_fresh: u32,
    hub: &mut HindHub,
    fault: &mut HindFault,
) -> u32
    ensures done { result ≡ done → OpensHub text.now epoch is_fresh hub.new }
    ensures same { result ≢ done → hub.new ≡ hub.old }
    ensures busy { hub.old.live ≡ 1 → result ≡ busy }
    ensures free { result ≡ busy → hub.old.live ≡ 1 }
    ensures settings { result ≡ settings → IsRefused text.now fault.new }
    ensures only { result ≢ done → result ≢ busy → result ≢ settings → result ≡ memory }
{
    if hub.live == 1 {
        return BUSY;
    }
    match read_settings(alloc, text) {
        Ok(settings) => open_hub(alloc, &settings, epoch, is_fresh, hub),
        Err(SettingsFault::Memory) => MEMORY,
        Err(SettingsFault::NoRoom) => {
            *fault = no_room();
            SETTINGS
        }
        Err(SettingsFault::Refused(refusal)) => {
            *fault = refusal_out(&refusal);
            SETTINGS
        }
    }
}

/// Makes a hub by settings that were read, and fills the handle. The code is DONE or MEMORY.
fn open_hub(
    alloc: Global,
    settings: &ServiceSettings,
    epoch: u64,
    is_fresh: u32,
    hub: &mut HindHub,
) -> u32
    requires { IsServiceSettings (service_of settings.now) }
    ensures done { (text : _) → reading_of text ≡ Ok (service_of settings.now) → result ≡ done → OpensHub text epoch is_fresh hub.new }
    ensures same { result ≢ done → hub.new ≡ hub.old }
    ensures only { result ≢ done → result ≡ memory }
{
    match Hub::by_settings(alloc, epoch, is_fresh != 0, settings) {
        Ok(made) => match fill_hub(alloc, made, hub) {
            Ok(()) => DONE,
            Err(Memory) => MEMORY,
        },
        Err(MakeFault::Memory) => MEMORY,
        Err(MakeFault::Limits) => unreachable!(),
    }
}

/// Fills the handle.
fn fill_hub(alloc: Global, made: Hub, hub: &mut HindHub) -> Result<(), Memory>
    ensures filled { OnOk result (HoldsHub hub.new (record { hub = made; cursor = start })) }
    ensures same { OnErr result (hub.new ≡ hub.old) }
{
    let cell = Box::new(
        alloc,
        HubCell {
            hub: made,
            cursor: Cursor::start(),
        },
    )?;
    *hub = HindHub {
        slot: HubSlot::full(Loose::of(cell)),
        live: 1,
        pad: [0; 29],
    };
    Ok(())
}

/// Takes a message of a node, by its bytes. DONE and NO_MESSAGE (it is none that a hub takes): it may be acknowledged at once. HELD: it may
/// be when `hindcore_hub_acknowledge` names it. FULL: it is too much for now, and is to be delivered again. MEMORY: likewise.
#[unsafe(no_mangle)]
pub extern "C" fn hindcore_hub_deliver(alloc: Global, hub: &mut HindHub, bytes: &[u8]) -> u32
    ensures idle { IsIdleHub hub.old result hub.new }
    ensures memory { Does (λ old code new. code ≡ memory → new ≡ old) hub.old result hub.new }
    ensures message { (m : PlainMessage) → IsMessage m → bytes.now ≡ message_bytes m
        → Does (λ old code new. code ≢ memory → (delivered : Delivered) × (code ≡ delivered_code delivered) × IsDelivered old m delivered new) hub.old result hub.new }
    ensures none { SpellsNone bytes.now → Does (λ old code new. code ≢ memory → (code ≡ no_message) × (new ≡ old)) hub.old result hub.new }
{
    if hub.live != 1 {
        return VACANT;
    }
    let mut cell = replace(&mut hub.slot, HubSlot::vacant())
        .open(alloc)
        .into_box();
    let delivered = cell.hub.deliver(bytes);
    hub.slot = HubSlot::full(Loose::of(cell));
    match delivered {
        Ok(delivered) => code_of_delivered(delivered),
        Err(Memory) => MEMORY,
    }
}

/// Writes the ask that is to be sent next as a message, and how many bytes it has. It counts as sent then. NOTHING, where there is none;
/// SHORT, where it does not fit: `len` says how many bytes it takes; UNFIT, where the message has no spelling.
#[unsafe(no_mangle)]
pub extern "C" fn hindcore_hub_next(
    alloc: Global,
    hub: &mut HindHub,
    out: &mut [u8],
    len: &mut u64,
) -> u32
    ensures idle { IsIdleHub hub.old result hub.new }
    ensures asks { Does (SendsAsk out.old len.old out.new len.new) hub.old result hub.new }
{
    if hub.live != 1 {
        return VACANT;
    }
    let mut cell = replace(&mut hub.slot, HubSlot::vacant())
        .open(alloc)
        .into_box();
    let written = cell.hub.next(out);
    hub.slot = HubSlot::full(Loose::of(cell));
    match written {
        Ok(Some(bytes)) => {
            *len = bytes as u64;
            DONE
        }
        Ok(None) => NOTHING,
        Err(WriteFault::Short(wanted)) => {
            *len = wanted as u64;
            SHORT
        }
        Err(WriteFault::NoSpelling) => UNFIT,
    }
}

/// A pass: groups whose nodes do not answer are asked again where that is due.
#[unsafe(no_mangle)]
pub extern "C" fn hindcore_hub_pass(alloc: Global, hub: &mut HindHub) -> u32
    ensures idle { IsIdleHub hub.old result hub.new }
    ensures pass { Does (λ old code new. (code ≡ done) × (new ≡ after_pass old)) hub.old result hub.new }
{
    if hub.live != 1 {
        return VACANT;
    }
    let mut cell = replace(&mut hub.slot, HubSlot::vacant())
        .open(alloc)
        .into_box();
    cell.hub.pass();
    hub.slot = HubSlot::full(Loose::of(cell));
    DONE
}

/// Gives a trace out, and names it. It is held until it is saved, and its rows are shown from the first on. NOTHING, where none may go, or
/// one is out: then the rows of that one are shown from the first on again.
#[unsafe(no_mangle)]
pub extern "C" fn hindcore_hub_take(alloc: Global, hub: &mut HindHub, trace: &mut HindTrace) -> u32
    ensures idle { IsIdleHub hub.old result hub.new }
    ensures takes { DoesAll (λ old code new. NamesTrace (answer_to_take old.hub) trace.old trace.new code × (new ≡ record { hub = after_take old.hub; cursor = start })) hub.old result hub.new }
{
    if hub.live != 1 {
        return VACANT;
    }
    let mut cell = replace(&mut hub.slot, HubSlot::vacant())
        .open(alloc)
        .into_box();
    let taken = cell.hub.take();
    cell.cursor = Cursor::start();
    hub.slot = HubSlot::full(Loose::of(cell));
    match taken {
        Some(id) => {
            *trace = HindTrace {
                bytes: id.0.to_be_bytes(),
            };
            DONE
        }
        None => NOTHING,
    }
}

/// Copies a payload to the front of `out`, as far as there is room.
fn copy_front(out: &mut [u8], payload: &[u8])
    ensures { out.new ≡ with_front payload.now out.old }
{
    let len = payload.len().min(out.len());
    let (front, _) = out.split_at_mut(len);
    let (part, _) = payload.split_at(len);
    front.copy_from_slice(part);
}

/// Shows the next row of the trace that is out: writes what it says, and its payload to the front of `out`, as far as there is room. No payload
/// has more than 65,535 bytes. NOTHING, where there is none.
#[unsafe(no_mangle)]
pub extern "C" fn hindcore_hub_row(
    alloc: Global,
    hub: &mut HindHub,
    row: &mut HindRow,
    out: &mut [u8],
) -> u32
    ensures idle { IsIdleHub hub.old result hub.new }
    ensures shows { DoesAll (ShowsRow out.old row.old out.new row.new) hub.old result hub.new }
{
    if hub.live != 1 {
        return VACANT;
    }
    let mut cell = replace(&mut hub.slot, HubSlot::vacant())
        .open(alloc)
        .into_box();
    let code = cell.show_row(row, out);
    hub.slot = HubSlot::full(Loose::of(cell));
    code
}

/// Notes that the trace that is out was saved, and names it. NOTHING, where none is out.
#[unsafe(no_mangle)]
pub extern "C" fn hindcore_hub_saved(alloc: Global, hub: &mut HindHub, trace: &mut HindTrace) -> u32
    ensures idle { IsIdleHub hub.old result hub.new }
    ensures saved { Does (λ old code new. NamesTrace old.receipts.out trace.old trace.new code × (new ≡ after_saved old)) hub.old result hub.new }
{
    if hub.live != 1 {
        return VACANT;
    }
    let mut cell = replace(&mut hub.slot, HubSlot::vacant())
        .open(alloc)
        .into_box();
    let saved = cell.hub.saved();
    hub.slot = HubSlot::full(Loose::of(cell));
    match saved {
        Some(id) => {
            *trace = HindTrace {
                bytes: id.0.to_be_bytes(),
            };
            DONE
        }
        None => NOTHING,
    }
}

/// Names a message that may be acknowledged, and was not named yet. NOTHING, where there is none.
#[unsafe(no_mangle)]
pub extern "C" fn hindcore_hub_acknowledge(
    alloc: Global,
    hub: &mut HindHub,
    message: &mut HindMessageId,
) -> u32
    ensures idle { IsIdleHub hub.old result hub.new }
    ensures names { Does (λ old code new. NamesMessage (slice_get old.receipts.done 0) message.old message.new code × (new ≡ after_named old)) hub.old result hub.new }
{
    if hub.live != 1 {
        return VACANT;
    }
    let mut cell = replace(&mut hub.slot, HubSlot::vacant())
        .open(alloc)
        .into_box();
    let named = cell.hub.next_acknowledged();
    hub.slot = HubSlot::full(Loose::of(cell));
    match named {
        Some(id) => {
            *message = HindMessageId {
                node: id.node,
                epoch: id.epoch,
                number: id.number,
            };
            DONE
        }
        None => NOTHING,
    }
}

/// Writes whether the trace that is out is whole: 1, or 0, also where none is out.
#[unsafe(no_mangle)]
pub extern "C" fn hindcore_hub_whole(alloc: Global, hub: &mut HindHub, whole: &mut u32) -> u32
    ensures idle { IsIdleHub hub.old result hub.new }
    ensures whole { Does (λ old code new. (new ≡ old) × (code ≢ memory → (code ≡ done) × (whole.new ≡ flag (is_whole_out old)))) hub.old result hub.new }
    ensures same { result ≢ done → whole.new ≡ whole.old }
{
    if hub.live != 1 {
        return VACANT;
    }
    let cell = replace(&mut hub.slot, HubSlot::vacant())
        .open(alloc)
        .into_box();
    let is_whole = cell.hub.is_whole();
    hub.slot = HubSlot::full(Loose::of(cell));
    match is_whole {
        Ok(is_whole) => {
            *whole = u32::from(is_whole);
            DONE
        }
        Err(Memory) => MEMORY,
    }
}

/// Writes whether a node was asked for the trace that is out: 1 no group that claims it reached the node, 2 it answered, 3 it is silent.
/// NOTHING, where none is out.
#[unsafe(no_mangle)]
pub extern "C" fn hindcore_hub_node(
    alloc: Global,
    hub: &mut HindHub,
    node: u16,
    word: &mut u32,
) -> u32
    ensures idle { IsIdleHub hub.old result hub.new }
    ensures says { Does (λ old code new. (new ≡ old) × SaysOfNode old (record { 0 = node }) word.old word.new code) hub.old result hub.new }
{
    if hub.live != 1 {
        return VACANT;
    }
    let cell = replace(&mut hub.slot, HubSlot::vacant())
        .open(alloc)
        .into_box();
    let said = cell.hub.node_word(NodeId(node));
    hub.slot = HubSlot::full(Loose::of(cell));
    match said {
        Some(said) => {
            *word = node_number(said);
            DONE
        }
        None => NOTHING,
    }
}

/// Writes what a life of a node said last of the trace that is out. NOTHING, where none is out.
#[unsafe(no_mangle)]
pub extern "C" fn hindcore_hub_life(
    alloc: Global,
    hub: &mut HindHub,
    node: u16,
    epoch: u64,
    life: &mut HindLife,
) -> u32
    ensures idle { IsIdleHub hub.old result hub.new }
    ensures says { Does (λ old code new. (new ≡ old) × SaysOfLife old (record { node = node; epoch = epoch }) life.old life.new code) hub.old result hub.new }
{
    if hub.live != 1 {
        return VACANT;
    }
    let cell = replace(&mut hub.slot, HubSlot::vacant())
        .open(alloc)
        .into_box();
    let said = cell.hub.life_word(Life { node, epoch });
    hub.slot = HubSlot::full(Loose::of(cell));
    match said {
        Some(said) => {
            *life = life_out(&said);
            DONE
        }
        None => NOTHING,
    }
}

/// Writes which part of the trace is out: 0 where none was saved before, as far as that is known of the traces that were saved last. NOTHING,
/// where none is out.
#[unsafe(no_mangle)]
pub extern "C" fn hindcore_hub_part(alloc: Global, hub: &mut HindHub, part: &mut u32) -> u32
    ensures idle { IsIdleHub hub.old result hub.new }
    ensures part { Does (λ old code new. (new ≡ old) × Writes (λ n. n) (part_out old) part.old part.new code) hub.old result hub.new }
{
    if hub.live != 1 {
        return VACANT;
    }
    let cell = replace(&mut hub.slot, HubSlot::vacant())
        .open(alloc)
        .into_box();
    let found = cell.hub.part();
    hub.slot = HubSlot::full(Loose::of(cell));
    match found {
        Some(number) => {
            *part = number;
            DONE
        }
        None => NOTHING,
    }
}

impl HubCell {
    /// The group at a place among those that claim the trace that is out, the oldest one first.
    fn claim(&self, place: u32) -> Option<HindClaim>
        ensures { result ≡ option_map claim_in (claim_at_place self.now.hub place) }
    {
        let followed = self.hub.claim(place as usize)?;
        Some(claim_out(&followed.ask))
    }

    /// The lateral at a place among those of such a group.
    fn lateral(&self, place: u32, at: u32) -> Option<TraceId>
        ensures { result ≡ lateral_at self.now.hub place at }
    {
        let followed = self.hub.claim(place as usize)?;
        followed.ask.laterals.get(at)
    }
}

/// Writes which group claims the trace that is out, by its place among all that do, from 0, the oldest one first. NOTHING, where there is
/// none.
#[unsafe(no_mangle)]
pub extern "C" fn hindcore_hub_claim(
    alloc: Global,
    hub: &mut HindHub,
    place: u32,
    claim: &mut HindClaim,
) -> u32
    ensures idle { IsIdleHub hub.old result hub.new }
    ensures claim { Does (λ old code new. (new ≡ old) × Writes claim_in (claim_at_place old place) claim.old claim.new code) hub.old result hub.new }
{
    if hub.live != 1 {
        return VACANT;
    }
    let cell = replace(&mut hub.slot, HubSlot::vacant())
        .open(alloc)
        .into_box();
    let found = cell.claim(place);
    hub.slot = HubSlot::full(Loose::of(cell));
    match found {
        Some(known) => {
            *claim = known;
            DONE
        }
        None => NOTHING,
    }
}

/// Writes the lateral at a place among those of such a group, from 0. NOTHING, where there is none.
#[unsafe(no_mangle)]
pub extern "C" fn hindcore_hub_lateral(
    alloc: Global,
    hub: &mut HindHub,
    place: u32,
    at: u32,
    trace: &mut HindTrace,
) -> u32
    ensures idle { IsIdleHub hub.old result hub.new }
    ensures lateral { Does (λ old code new. (new ≡ old) × NamesTrace (lateral_at old place at) trace.old trace.new code) hub.old result hub.new }
{
    if hub.live != 1 {
        return VACANT;
    }
    let cell = replace(&mut hub.slot, HubSlot::vacant())
        .open(alloc)
        .into_box();
    let found = cell.lateral(place, at);
    hub.slot = HubSlot::full(Loose::of(cell));
    match found {
        Some(id) => {
            *trace = HindTrace {
                bytes: id.0.to_be_bytes(),
            };
            DONE
        }
        None => NOTHING,
    }
}

/// Writes which life spoke of the trace that is out, by its place among all that did, from 0, in the order in which they spoke first. NOTHING,
/// where there is none.
#[unsafe(no_mangle)]
pub extern "C" fn hindcore_hub_life_at(
    alloc: Global,
    hub: &mut HindHub,
    place: u32,
    life: &mut HindLifeId,
) -> u32
    ensures idle { IsIdleHub hub.old result hub.new }
    ensures life { Does (λ old code new. (new ≡ old) × Writes life_id_out (life_of old place) life.old life.new code) hub.old result hub.new }
{
    if hub.live != 1 {
        return VACANT;
    }
    let cell = replace(&mut hub.slot, HubSlot::vacant())
        .open(alloc)
        .into_box();
    let found = cell.hub.life(place as usize);
    hub.slot = HubSlot::full(Loose::of(cell));
    match found {
        Some(known) => {
            *life = HindLifeId {
                epoch: known.epoch,
                node: known.node,
            };
            DONE
        }
        None => NOTHING,
    }
}

/// Writes how much the hub holds.
#[unsafe(no_mangle)]
pub extern "C" fn hindcore_hub_counts(
    alloc: Global,
    hub: &mut HindHub,
    counts: &mut HindHubCounts,
) -> u32
    ensures idle { IsIdleHub hub.old result hub.new }
    ensures counts { Does (λ old code new. (code ≡ done) × (new ≡ old) × (counts.new ≡ counts_in old)) hub.old result hub.new }
    ensures idle_counts { (hub.old.live ≡ 1 → ⊥) → counts.new ≡ counts.old }
{
    if hub.live != 1 {
        return VACANT;
    }
    let cell = replace(&mut hub.slot, HubSlot::vacant())
        .open(alloc)
        .into_box();
    let all = cell.hub.counts();
    *counts = HindHubCounts {
        passes: all.passes,
        groups: all.groups as u64,
        traces: all.traces as u64,
        bytes: all.bytes,
        standings: u64::from(all.standings),
        messages: all.messages as u64,
    };
    hub.slot = HubSlot::full(Loose::of(cell));
    DONE
}

/// Frees what stands behind the handle, which is vacant from then on.
#[unsafe(no_mangle)]
pub extern "C" fn hindcore_hub_free(alloc: Global, hub: &mut HindHub) -> u32
    ensures idle { IsIdleHub hub.old result hub.new }
    ensures free { hub.old.live ≡ 1 → (result ≡ done) × (hub.new.live ≡ 0) }
{
    if hub.live != 1 {
        return VACANT;
    }
    let slot = replace(&mut hub.slot, HubSlot::vacant());
    hub.live = 0;
    let _ = slot.open(alloc).into_box();
    DONE
}
