//! Rows of a client and its port. Each pool has the client alone, so that on one thread every stamp is known.

ghost use Rattle.std.specs.Prelude.{◌≡◌, IsTrue};
ghost use Rattle.tests_with.specs.Pairs.{CanCall, KeepsClient, KeepsPort, IsOnly, HasClient};

use crate::live_calls::{Call, FULL, do_calls, is_closed};
use crate::live_sheets::{Sheet, take_sheet};
use crate::rows::row;
use hs_base::limits::MIN_SIZE;
use hs_base::{Crumb, Laterals, Memory, NodeId, TraceId, Trigger};
use hs_live::{AgentPort, Called, Client};
use hs_records::{ClientBook, Draw, PageNote};
use hs_words::Tally;
use std::alloc::Global;
use tests_with::{
    CLIENT, ID, Making, PairEnding, client_and_port, close_all, flush, meet, next_crumb,
    next_trigger, nothing_comes, renew,
};

/// Two chunks of the least size.
const TWO: Making = Making {
    buffers: 2,
    size: MIN_SIZE,
    calls: 64,
    capacity: 16,
};

/// The same over links of one entry.
const NARROW: Making = Making {
    buffers: 2,
    size: MIN_SIZE,
    calls: 64,
    capacity: 1,
};

const ONE_CALL: Making = Making {
    buffers: 1,
    size: MIN_SIZE,
    calls: 1,
    capacity: 1,
};

const NO_CALL: Making = Making {
    buffers: 1,
    size: MIN_SIZE,
    calls: 0,
    capacity: 1,
};

/// Without an open trace.
const REFUSED: [(Call, Called); 6] = [
    (Call::Empty { moment: 1 }, Called::NoTrace),
    (Call::Full { moment: 2 }, Called::NoTrace),
    (Call::Over { moment: 3 }, Called::NoTrace),
    (Call::Crumb, Called::NoTrace),
    (
        Call::Sample {
            moment: 4,
            value: 9,
        },
        Called::NoTrace,
    ),
    (Call::End, Called::NoTrace),
];

/// The first record fills page 0. The second has a piece on page 1, and one on page 2, which is null, as is page 3. The
/// last sample is greater than the two before it, of which the trace 2 is the later.
const CALLS: [(Call, Called); 16] = [
    (Call::Begin { trace: 1 }, Called::Done),
    (Call::Begin { trace: 2 }, Called::AlreadyOpen),
    (Call::Full { moment: 5 }, Called::Done),
    (Call::Over { moment: 6 }, Called::Done),
    (Call::Crumb, Called::Done),
    (
        Call::Sample {
            moment: 7,
            value: 1,
        },
        Called::Done,
    ),
    (Call::End, Called::Done),
    (Call::Begin { trace: 2 }, Called::Done),
    (Call::Empty { moment: 8 }, Called::Done),
    (
        Call::Sample {
            moment: 9,
            value: 1,
        },
        Called::Done,
    ),
    (Call::End, Called::Done),
    (Call::Begin { trace: 3 }, Called::Done),
    (
        Call::Sample {
            moment: 10,
            value: 5,
        },
        Called::Done,
    ),
    (Call::End, Called::Done),
    (
        Call::Trigger {
            moment: 11,
            lead: 2,
        },
        Called::Done,
    ),
    (Call::End, Called::NoTrace),
];

const SHEETS: [Sheet; 2] = [
    Sheet {
        mark: 0,
        page: 0,
        trace: 1,
        first: 0,
        points: &[(5, &FULL)],
    },
    Sheet {
        mark: 0,
        page: 1,
        trace: 1,
        first: 1,
        points: &[(6, &[8; 30])],
    },
];

/// When both chunks were given back.
const LATER: [(Call, Called); 3] = [
    (Call::Begin { trace: 4 }, Called::Done),
    (Call::Full { moment: 12 }, Called::Done),
    (Call::End, Called::Done),
];

/// What the calls of `LATER` write after a renewal: numbers count from 0 again.
const RENEWED: Sheet = Sheet {
    mark: 1,
    page: 0,
    trace: 4,
    first: 0,
    points: &[(12, &FULL)],
};

/// The buffer that was given first is got first.
const DRAWS: [Draw; 5] = [
    Draw::Got {
        buffer: 0,
        stamp: 0,
    },
    Draw::Got {
        buffer: 1,
        stamp: 1,
    },
    Draw::Empty { stamp: 2 },
    Draw::Empty { stamp: 3 },
    Draw::Got {
        buffer: 0,
        stamp: 8,
    },
];

const PAGES: [PageNote; 5] = [
    PageNote {
        trace: TraceId(1),
        first: 0,
        count: 1,
    },
    PageNote {
        trace: TraceId(1),
        first: 1,
        count: 1,
    },
    PageNote {
        trace: TraceId(1),
        first: 1,
        count: 1,
    },
    PageNote {
        trace: TraceId(2),
        first: 2,
        count: 1,
    },
    PageNote {
        trace: TraceId(4),
        first: 3,
        count: 1,
    },
];

const TALLY: Tally = Tally {
    gots: 3,
    empties: 2,
    gives: 2,
    misses: 2,
};

const NO_TALLY: Tally = Tally {
    gots: 0,
    empties: 0,
    gives: 0,
    misses: 0,
};

const CRUMB: Crumb = Crumb {
    trace: TraceId(1),
    node: NodeId(1),
};

/// The trigger of the one id at this moment.
fn trigger_of(moment: u64, lead: u128, laterals: Laterals) -> Option<Trigger> {
    Some(Trigger {
        moment,
        trigger: ID,
        lead: TraceId(lead),
        laterals,
    })
}

/// The laterals of the one sample of `CALLS` that fires.
fn both() -> Laterals {
    let mut laterals = Laterals::none();
    laterals.push(TraceId(2));
    laterals.push(TraceId(1));
    laterals
}

/// Whether these draws and pages are noted.
fn has_noted(book: &ClientBook, draws: &[Draw], pages: &[PageNote]) -> bool {
    book.draws.as_slice() == draws && book.pages.as_slice() == pages
}

/// Makes the calls that are refused. Answers how many were answered otherwise, how much waits to be sent, how many draws
/// found nothing, and whether nothing came.
fn refuses(client: &mut Client, port: &mut AgentPort) -> (u32, u32, u32, bool)
    requires can { CanCall MIN_SIZE 13 client.old }
    requires ends { IsOnly port.old client.old }
    ensures left { CanCall MIN_SIZE 1 client.new }
    ensures same { KeepsPort port.old port.new × KeepsClient client.old client.new }
{
    let others = do_calls(client, &REFUSED);
    let waits = flush(client);
    meet(port, client);
    let nothing = nothing_comes(port);
    (others, waits, client.nulls(), nothing)
}

/// What is left behind: what the client noted, how many chunks were not received, and what the pool answered. All crumbs and triggers were
/// received.
struct Ending {
    draws: &'static [Draw],
    pages: &'static [PageNote],
    chunks: u64,
    tally: Tally,
}

const NOTHING: Ending = Ending {
    draws: &[],
    pages: &[],
    chunks: 0,
    tally: NO_TALLY,
};

const ALL: Ending = Ending {
    draws: &DRAWS,
    pages: &PAGES,
    chunks: 1,
    tally: TALLY,
};

/// Whether this is left behind.
fn is_left(left: &PairEnding, wanted: &Ending) -> bool {
    left.book.client == CLIENT
        && has_noted(&left.book, wanted.draws, wanted.pages)
        && (left.chunks, left.crumbs, left.triggers) == (wanted.chunks, 0, 0)
        && left.tally == wanted.tally
}

/// Closes a client and its port. Answers whether no trace was open, and this is left behind.
fn leaves(
    alloc: Global,
    mut client: Client,
    port: AgentPort,
    wanted: &Ending,
) -> Result<bool, Memory>
    requires can { CanCall MIN_SIZE 1 client }
    requires ends { IsOnly port client }
{
    if !is_closed(&mut client) {
        return Ok(false);
    }
    let left = close_all(alloc, client, port)?;
    Ok(is_left(&left, wanted))
}

fn a_refused_call_sends_nothing(alloc: Global) -> Result<bool, Memory> {
    let (mut client, mut port) = client_and_port(alloc, TWO)?;
    let refused = refuses(&mut client, &mut port) == (0, 0, 0, true);
    Ok(leaves(alloc, client, port, &NOTHING)? && refused)
}

/// Takes the two pages, the crumb and the triggers of `CALLS`. Answers whether they are as they should be, and nothing
/// more comes.
fn takes_all(alloc: Global, port: &mut AgentPort) -> Result<bool, Memory>
    requires { HasClient port.old }
    ensures { KeepsPort port.old port.new }
{
    let first = take_sheet(alloc, port, &SHEETS[0])?;
    let second = take_sheet(alloc, port, &SHEETS[1])?;
    let crumb = next_crumb(port);
    let sampled = next_trigger(port);
    let fired = next_trigger(port);
    Ok(
        first == Some((2, 6))
            && second == Some((0, 7))
            && crumb == Some(CRUMB)
            && sampled == trigger_of(10, 3, both())
            && fired == trigger_of(11, 2, Laterals::none())
            && nothing_comes(port),
    )
}

/// Makes the calls of `CALLS`, takes all that came, and makes those of `LATER`. Answers how many were answered otherwise,
/// how many draws found nothing, how much waited to be sent, and whether what came is right.
fn calls_all(
    alloc: Global,
    client: &mut Client,
    port: &mut AgentPort,
) -> (u32, u32, u32, u32, Result<bool, Memory>)
    requires can { CanCall MIN_SIZE 39 client.old }
    requires ends { IsOnly port.old client.old }
    ensures left { CanCall MIN_SIZE 1 client.new }
    ensures same { KeepsPort port.old port.new × KeepsClient client.old client.new }
{
    let others = do_calls(client, &CALLS);
    let nulls = client.nulls();
    let waits = flush(client);
    meet(port, client);
    let taken = takes_all(alloc, port);
    let later = do_calls(client, &LATER);
    (others, later, nulls, waits, taken)
}

fn all_calls_on_one_thread(alloc: Global) -> Result<bool, Memory> {
    let (mut client, mut port) = client_and_port(alloc, TWO)?;
    let (others, later, nulls, waits, taken) = calls_all(alloc, &mut client, &mut port);
    let called = (others, later, nulls, waits) == (0, 0, 2, 0);
    Ok(leaves(alloc, client, port, &ALL)? && called && taken?)
}

/// Makes the calls of `CALLS` over links of one entry each. A chunk and a trigger wait, until what was put before is taken.
fn flushes(alloc: Global, client: &mut Client, port: &mut AgentPort) -> Result<bool, Memory>
    requires can { CanCall MIN_SIZE 32 client.old }
    requires ends { HasClient port.old }
{
    let others = do_calls(client, &CALLS);
    let waits = flush(client);
    let first = take_sheet(alloc, port, &SHEETS[0])?;
    let sampled = next_trigger(port);
    let crumb = next_crumb(port);
    let nothing_yet = nothing_comes(port);
    let later = flush(client);
    let second = take_sheet(alloc, port, &SHEETS[1])?;
    let fired = next_trigger(port);
    Ok(
        (others, waits, later) == (0, 2, 0)
            && first == Some((2, 6))
            && sampled == trigger_of(10, 3, both())
            && crumb == Some(CRUMB)
            && nothing_yet
            && second == Some((0, 7))
            && fired == trigger_of(11, 2, Laterals::none())
            && nothing_comes(port),
    )
}

fn what_waits_is_put_once_there_is_room(alloc: Global) -> Result<bool, Memory> {
    let (mut client, mut port) = client_and_port(alloc, NARROW)?;
    flushes(alloc, &mut client, &mut port)
}

/// Makes the calls of `CALLS` over links of one entry each, and renews the client while a chunk and a trigger wait. These come
/// still, and then what the calls of `LATER` write.
fn goes_on(alloc: Global, client: &mut Client, port: &mut AgentPort) -> Result<bool, Memory>
    requires can { CanCall MIN_SIZE 39 client.old }
    requires ends { HasClient port.old }
{
    let others = do_calls(client, &CALLS);
    let renewed = renew(client);
    let first = take_sheet(alloc, port, &SHEETS[0])?;
    let sampled = next_trigger(port);
    let waits = flush(client);
    let second = take_sheet(alloc, port, &SHEETS[1])?;
    let fired = next_trigger(port);
    let later = do_calls(client, &LATER);
    let third = take_sheet(alloc, port, &RENEWED)?;
    Ok(
        (others, waits, later, client.nulls()) == (0, 0, 0, 0)
            && renewed
            && (first, second, third) == (Some((2, 6)), Some((0, 7)), Some((0, 9)))
            && sampled == trigger_of(10, 3, both())
            && fired == trigger_of(11, 2, Laterals::none()),
    )
}

fn a_renewed_client_goes_on(alloc: Global) -> Result<bool, Memory> {
    let (mut client, mut port) = client_and_port(alloc, NARROW)?;
    goes_on(alloc, &mut client, &mut port)
}

/// Makes calls of a client that may have one counted. Those that are not counted are done still.
fn is_spent(client: &mut Client) -> bool
    requires { CanCall MIN_SIZE 1 client.old }
{
    let opened = client.begin(TraceId(1));
    let opened_again = client.begin(TraceId(2));
    let ended = client.end();
    let left_crumb = client.crumb(NodeId(1));
    opened == Called::Done
        && opened_again == Called::Spent
        && ended == Called::Spent
        && left_crumb == Called::Done
}

fn a_spent_client_still_leaves_crumbs(alloc: Global) -> Result<bool, Memory> {
    let (mut client, mut port) = client_and_port(alloc, ONE_CALL)?;
    let spent = is_spent(&mut client);
    Ok(spent && next_crumb(&mut port) == Some(CRUMB) && nothing_comes(&mut port))
}

/// Whether a begin is refused, since no call may be counted, and nothing waits or was drawn.
fn begins_nothing(client: &mut Client) -> bool
    ensures trace { IsTrue result → client.new.core.trace ≡ client.old.core.trace }
    ensures same { KeepsClient client.old client.new }
{
    client.begin(TraceId(1)) == Called::Spent && client.nulls() == 0
}

fn nothing_at_all(alloc: Global) -> Result<bool, Memory> {
    let (mut client, mut port) = client_and_port(alloc, NO_CALL)?;
    if !begins_nothing(&mut client) {
        return Ok(false);
    }
    let waits = flush(&mut client);
    meet(&mut port, &mut client);
    let left = close_all(alloc, client, port)?;
    Ok(is_left(&left, &NOTHING) && waits == 0)
}

#[test]
fn clients(rt: HostRuntime) {
    row(&rt, "refused", a_refused_call_sends_nothing(rt.alloc()));
    row(&rt, "all calls", all_calls_on_one_thread(rt.alloc()));
    row(
        &rt,
        "what waits",
        what_waits_is_put_once_there_is_room(rt.alloc()),
    );
    row(&rt, "renewed", a_renewed_client_goes_on(rt.alloc()));
    row(&rt, "spent", a_spent_client_still_leaves_crumbs(rt.alloc()));
    row(&rt, "nothing", nothing_at_all(rt.alloc()));
}
