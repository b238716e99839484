//! Messages, written as bytes.

ghost use Rattle.std.specs.Prelude.{◌≡◌, ◌≢◌, ◌+◌, ◌*◌, ◌<◌, ◌≤◌, ◌^◌, ◌↔◌, List, ℕ, [], ◌∷◌, ◌++◌, length, drop, IsTrue, IfOk, OnErr, Err};
ghost use Rattle.std.specs.Int.{w16, w32, w64, w128, to_be_bytes};
ghost use Rattle.hs_wire.specs.Messages.{AreBytes, IsHead, IsId, IsGroup, AreTraces, AreLosses, IsHello, IsTold, IsAsk, IsReported, IsStanding, IsSaid, IsMessage, why_byte, wholeness_byte, kind_of, head_bytes, id_bytes, group_bytes, traces_bytes, losses_bytes, hello_bytes, told_bytes, ask_bytes, reported_bytes, standing_bytes, said_bytes, message_bytes, plain_hello, plain_reported, said_of, plain};
ghost use Rattle.hs_wire.specs.Writing.{Puts, IsWithin, HasSpelling, said_len, message_len};

use crate::message::{
    Body, Head, Hello, Losses, MOST_NAME, MOST_PAGE, Message, Reported, Standing, VERSION,
    Wholeness, WriteFault,
};
use hs_base::limits::MOST_NODES;
use hs_base::{Ask, Group, GroupId, Laterals, Told, TraceId, Why};

/// Copies the bytes to a place, and answers the place behind them.
fn put(out: &mut [u8], at: usize, bytes: &[u8]) -> usize
    requires { at + length bytes.now ≤ length out.old }
    ensures puts { Puts out.old out.new at result bytes.now }
    ensures end { result ≡ at + length bytes.now }
    ensures fits { AreBytes bytes.now }
{
    let end = at + bytes.len();
    out[at..end].copy_from_slice(bytes);
    end
}

fn put_u8(out: &mut [u8], at: usize, number: u8) -> usize
    requires { at + 1 ≤ length out.old }
    ensures puts { Puts out.old out.new at result (number ∷ []) }
    ensures end { result ≡ at + 1 }
    ensures fits { number < 2 ^ 8 }
{
    put(out, at, &[number])
}

fn put_u16(out: &mut [u8], at: usize, number: u16) -> usize
    requires { at + 2 ≤ length out.old }
    ensures puts { Puts out.old out.new at result (to_be_bytes w16 number) }
    ensures end { result ≡ at + 2 }
    ensures fits { number < 2 ^ 16 }
{
    put(out, at, &number.to_be_bytes())
}

fn put_u32(out: &mut [u8], at: usize, number: u32) -> usize
    requires { at + 4 ≤ length out.old }
    ensures puts { Puts out.old out.new at result (to_be_bytes w32 number) }
    ensures end { result ≡ at + 4 }
    ensures fits { number < 2 ^ 32 }
{
    put(out, at, &number.to_be_bytes())
}

fn put_u64(out: &mut [u8], at: usize, number: u64) -> usize
    requires { at + 8 ≤ length out.old }
    ensures puts { Puts out.old out.new at result (to_be_bytes w64 number) }
    ensures end { result ≡ at + 8 }
    ensures fits { number < 2 ^ 64 }
{
    put(out, at, &number.to_be_bytes())
}

fn put_u128(out: &mut [u8], at: usize, number: u128) -> usize
    requires { at + 16 ≤ length out.old }
    ensures puts { Puts out.old out.new at result (to_be_bytes w128 number) }
    ensures end { result ≡ at + 16 }
    ensures fits { number < 2 ^ 128 }
{
    put(out, at, &number.to_be_bytes())
}

fn put_head(out: &mut [u8], at: usize, head: Head) -> usize
    requires room { at + 18 ≤ length out.old }
    requires node { head.node.0 < MOST_NODES }
    ensures puts { Puts out.old out.new at result (head_bytes head) }
    ensures end { result ≡ at + 18 }
    ensures fits { IsHead head }
{
    let at = put_u64(out, at, head.epoch);
    let at = put_u64(out, at, head.number);
    put_u16(out, at, head.node.0)
}

fn put_id(out: &mut [u8], at: usize, id: GroupId) -> usize
    requires room { at + 6 ≤ length out.old }
    requires node { id.node < MOST_NODES }
    ensures puts { Puts out.old out.new at result (id_bytes id) }
    ensures end { result ≡ at + 6 }
    ensures fits { IsId id }
{
    let at = put_u16(out, at, id.node);
    put_u32(out, at, id.number)
}

fn put_group(out: &mut [u8], at: usize, group: Group) -> usize
    requires room { at + 23 ≤ length out.old }
    requires node { group.id.node < MOST_NODES }
    ensures puts { Puts out.old out.new at result (group_bytes group) }
    ensures end { result ≡ at + 23 }
    ensures fits { IsGroup group }
{
    let at = put_id(out, at, group.id);
    let at = put_u8(out, at, group.trigger.0);
    put_u128(out, at, group.lead.0)
}

fn put_laterals(out: &mut [u8], at: usize, laterals: &Laterals) -> usize
    requires { at + 1 + 16 * length laterals.now ≤ length out.old }
    ensures puts { Puts out.old out.new at result (traces_bytes laterals.now) }
    ensures fits { AreTraces laterals.now }
{
    let count = laterals.len();
    let mut end = put_u8(out, at, count as u8);
    for place in 0..count {
        let Some(TraceId(trace)) = laterals.get(place) else {
            unreachable!()
        };
        end = put_u128(out, end, trace);
    }
    end
}

fn byte_of_why(why: Why) -> u8
    ensures { result ≡ why_byte why }
{
    match why {
        Why::Fired => 0,
        Why::Answer => 1,
        Why::Late => 2,
    }
}

fn byte_of_wholeness(wholeness: Wholeness) -> u8
    ensures { result ≡ wholeness_byte wholeness }
{
    match wholeness {
        Wholeness::WholeSince => 0,
        Wholeness::Lost => 1,
        Wholeness::UnheardSince => 2,
        Wholeness::Unknown => 3,
        Wholeness::Open => 4,
    }
}

fn put_losses(out: &mut [u8], at: usize, losses: Losses) -> usize
    requires { at + 72 ≤ length out.old }
    ensures puts { Puts out.old out.new at result (losses_bytes losses) }
    ensures fits { AreLosses losses }
{
    let at = put_u64(out, at, losses.null_pages);
    let at = put_u64(out, at, losses.full_points);
    let at = put_u64(out, at, losses.dry_points);
    let at = put_u64(out, at, losses.long_points);
    let at = put_u64(out, at, losses.refused_crumbs);
    let at = put_u64(out, at, losses.evicted_crumbs);
    let at = put_u64(out, at, losses.forgotten_crumbs);
    let at = put_u64(out, at, losses.evicted_pages);
    put_u64(out, at, losses.abandoned_pages)
}

fn put_hello(out: &mut [u8], at: usize, hello: &Hello<'_>) -> usize
    requires room { at + 33 + length hello.now.name.now ≤ length out.old }
    requires short { length hello.now.name.now ≤ MOST_NAME }
    ensures puts { Puts out.old out.new at result (hello_bytes (plain_hello hello.now)) }
    ensures fits { IsHello (plain_hello hello.now) }
{
    let at = put(out, at, &hello.digest);
    let at = put_u8(out, at, hello.name.len() as u8);
    put(out, at, hello.name)
}

fn put_told(out: &mut [u8], at: usize, told: &Told) -> usize
    requires room { at + 41 + 16 * length told.now.laterals ≤ length out.old }
    requires node { told.now.group.id.node < MOST_NODES }
    ensures puts { Puts out.old out.new at result (told_bytes told.now) }
    ensures fits { IsTold told.now }
{
    let at = put_group(out, at, told.group);
    let at = put_u8(out, at, byte_of_why(told.why));
    let at = put_u128(out, at, told.crumbs.0);
    put_laterals(out, at, &told.laterals)
}

fn put_ask(out: &mut [u8], at: usize, ask: &Ask) -> usize
    requires room { at + 24 + 16 * length ask.now.laterals ≤ length out.old }
    requires node { ask.now.group.id.node < MOST_NODES }
    ensures puts { Puts out.old out.new at result (ask_bytes ask.now) }
    ensures fits { IsAsk ask.now }
{
    let at = put_group(out, at, ask.group);
    put_laterals(out, at, &ask.laterals)
}

fn put_reported(out: &mut [u8], at: usize, reported: &Reported<'_>) -> usize
    requires room { at + 35 + length reported.now.page.now ≤ length out.old }
    requires node { reported.now.group.id.node < MOST_NODES }
    requires short { length reported.now.page.now ≤ MOST_PAGE }
    ensures puts { Puts out.old out.new at result (reported_bytes (plain_reported reported.now)) }
    ensures fits { IsReported (plain_reported reported.now) }
{
    let at = put_group(out, at, reported.group);
    let at = put_u16(out, at, reported.client);
    let at = put_u64(out, at, reported.core);
    let at = put_u16(out, at, reported.page.len() as u16);
    put(out, at, reported.page)
}

fn put_standing(out: &mut [u8], at: usize, standing: &Standing) -> usize
    requires room { at + 131 ≤ length out.old }
    requires node { standing.now.group.node < MOST_NODES }
    ensures puts { Puts out.old out.new at result (standing_bytes standing.now) }
    ensures fits { IsStanding standing.now }
{
    let at = put_u128(out, at, standing.trace.0);
    let at = put_id(out, at, standing.group);
    let at = put_u8(out, at, byte_of_wholeness(standing.wholeness));
    let at = put_u32(out, at, standing.open_segments);
    let at = put_u64(out, at, standing.horizon);
    let at = put_u64(out, at, standing.pages);
    let at = put_u128(out, at, standing.crumbs.0);
    put_losses(out, at, standing.losses)
}

fn put_body(out: &mut [u8], at: usize, body: &Body<'_>) -> usize
    requires room { at + said_len (said_of body.now) ≤ length out.old }
    requires within { IsWithin (said_of body.now) }
    ensures puts { Puts out.old out.new at result (said_bytes (said_of body.now)) }
    ensures fits { IsSaid (said_of body.now) }
{
    match body {
        Body::Hello(hello) => put_hello(out, at, hello),
        Body::Told(told) => put_told(out, at, told),
        Body::Ask(ask) => put_ask(out, at, ask),
        Body::Reported(reported) => put_reported(out, at, reported),
        Body::Standing(standing) => put_standing(out, at, standing),
    }
}

fn kind_byte(body: &Body<'_>) -> u8
    ensures { result ≡ kind_of (said_of body.now) }
{
    match body {
        Body::Hello(_) => 1,
        Body::Told(_) => 2,
        Body::Ask(_) => 3,
        Body::Reported(_) => 4,
        Body::Standing(_) => 5,
    }
}

fn put_message(out: &mut [u8], message: &Message<'_>) -> usize
    requires room { message_len (plain message.now) ≤ length out.old }
    requires node { message.now.head.node.0 < MOST_NODES }
    requires within { IsWithin (said_of message.now.body) }
    ensures puts { Puts out.old out.new 0 result (message_bytes (plain message.now)) }
    ensures fits { IsMessage (plain message.now) }
{
    let at = put_u8(out, 0, VERSION);
    let at = put_u8(out, at, kind_byte(&message.body));
    let at = put_head(out, at, message.head);
    put_body(out, at, &message.body)
}

/// Whether the group's node is below 128, and the name or the page is not too long.
fn is_within(body: &Body<'_>) -> bool
    ensures { IsTrue result ↔ IsWithin (said_of body.now) }
{
    match body {
        Body::Hello(hello) => hello.name.len() <= usize::from(MOST_NAME),
        Body::Told(told) => told.group.id.node < MOST_NODES,
        Body::Ask(ask) => ask.group.id.node < MOST_NODES,
        Body::Reported(reported) => {
            reported.group.id.node < MOST_NODES && reported.page.len() <= usize::from(MOST_PAGE)
        }
        Body::Standing(standing) => standing.group.node < MOST_NODES,
    }
}

fn digest_len(digest: &[u8; 32]) -> usize
    ensures len { result ≡ length digest.now }
    ensures value { result ≡ 32 }
{
    digest.len()
}

fn len_of(body: &Body<'_>) -> usize
    requires { IsWithin (said_of body.now) }
    ensures len { result ≡ said_len (said_of body.now) }
    ensures bytes { result ≡ length (said_bytes (said_of body.now)) }
    ensures bound { result ≤ 32_811 }
{
    match body {
        Body::Hello(hello) => digest_len(&hello.digest) + 1 + hello.name.len(),
        Body::Told(told) => 41 + 16 * told.laterals.len() as usize,
        Body::Ask(ask) => 24 + 16 * ask.laterals.len() as usize,
        Body::Reported(reported) => 35 + reported.page.len(),
        Body::Standing(_) => 131,
    }
}

/// Writes a message to the front of a slice, and answers how many bytes it takes. Takes no memory.
pub fn write(out: &mut [u8], message: &Message<'_>) -> Result<usize, WriteFault>
    // The message's bytes stand at the front, and what stood behind them is still there.
    ensures bytes { IfOk result (λ n. out.new ≡ message_bytes (plain message.now) ++ drop n out.old) }
    ensures len { IfOk result (λ n. n ≡ length (message_bytes (plain message.now))) }
    ensures message { IfOk result (λ n. IsMessage (plain message.now)) }

    // Each fault has its cause, and changes nothing.
    ensures short { (wanted : ℕ) → result ≡ Err (WriteFault.Short wanted)
        → (wanted ≡ length (message_bytes (plain message.now))) × (length out.old < wanted) }
    ensures no_spelling { result ≡ Err WriteFault.NoSpelling → IsMessage (plain message.now) → ⊥ }
    ensures same { OnErr result (out.new ≡ out.old) }

    // NoSpelling comes exactly if a node is not below 128, or a name or a page is too long, whatever the slice.
    ensures beyond { result ≡ Err WriteFault.NoSpelling → ¬ HasSpelling (plain message.now) }
    ensures within { result ≢ Err WriteFault.NoSpelling → HasSpelling (plain message.now) }
{
    if message.head.node.0 >= MOST_NODES || !is_within(&message.body) {
        return Err(WriteFault::NoSpelling);
    }
    let wanted = 20 + len_of(&message.body);
    if out.len() < wanted {
        return Err(WriteFault::Short(wanted));
    }
    Ok(put_message(out, message))
}
