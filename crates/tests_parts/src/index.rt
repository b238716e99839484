//! What goes of an index that is full, and that a crumb alone counts. The rules of eviction are shown by `examples/` and `cases/agents` too.

ghost use Rattle.std.specs.Prelude.{◌<◌, IsSome};

use crate::rows::row;
use hs_base::limits::{MAX_NODES, MAX_THRESHOLD, MAX_TRACES, MIN_SIZE};
use hs_base::{ClientId, Crumb, List, Memory, NodeId, NodeSet, TraceId};
use hs_index::{Gone, TraceIndex};
use hs_words::{Chunk, Header, Held, Stock};
use std::alloc::Global;

/// The chunk with a page of the trace.
fn held_of(mut chunk: Chunk, trace: u32) -> Held<()>
    ensures { IsSome result.chunk.page }
{
    chunk.clear();
    chunk.start(Header {
        trace: TraceId(u128::from(trace)),
        client: ClientId { node: 0, number: 0 },
        page: 0,
        first: 0,
    });
    Held { chunk, lease: () }
}

/// Indexes a chunk of the trace, and answers what goes, or `None` for want of memory or of a chunk.
fn arrive(index: &mut TraceIndex<()>, chunk: Option<Chunk>, trace: u32) -> Option<List<Gone<()>>> {
    match index.arrive(held_of(chunk?, trace)) {
        Ok(gone) => Some(gone),
        Err(_) => None,
    }
}

/// Whether nothing goes.
fn is_none(gone: Option<List<Gone<()>>>) -> bool {
    match gone {
        Some(gone) => gone.is_empty(),
        None => false,
    }
}

/// Whether so many chunks go, the first of them with this number and these counts.
fn are_gone(
    gone: Option<List<Gone<()>>>,
    len: usize,
    number: u32,
    chunks: u32,
    traces: u32,
) -> bool {
    let Some(gone) = gone else {
        return false;
    };
    match gone.get(0) {
        Some(first) => {
            gone.len() == len
                && first.held.chunk.number() == number
                && first.chunks == chunks
                && first.traces == traces
        }
        None => false,
    }
}

/// Whether the last chunk has this number. Takes it out.
fn pops(left: &mut List<Held<()>>, number: u32) -> bool {
    match left.pop() {
        Some(held) => held.chunk.number() == number,
        None => false,
    }
}

/// Whether the index has so many chunks and traces.
fn holds(index: &TraceIndex<()>, chunks: u32, traces: u32) -> bool {
    index.chunks() == chunks && index.traces() == traces
}

/// Whether the index has so many chunks of the trace.
fn counts(index: &TraceIndex<()>, trace: u32, chunks: usize) -> bool {
    index.chunks_of(TraceId(u128::from(trace))) == chunks
}

/// Whether the trace has so many chunks, the first with this number, and these crumbs. Takes it out.
fn claims(
    index: &mut TraceIndex<()>,
    trace: u32,
    len: usize,
    number: Option<u32>,
    crumbs: NodeSet,
) -> bool {
    let Ok(taken) = index.claim(TraceId(u128::from(trace))) else {
        return false;
    };
    let first = match taken.held.get(0) {
        Some(first) => Some(first.chunk.number()),
        None => None,
    };
    taken.held.len() == len && first == number && taken.crumbs == crumbs
}

/// Whether the crumb of the trace to the node evicts nothing.
fn drops_crumb(index: &mut TraceIndex<()>, trace: u32, node: u16) -> bool
    requires { node < MAX_NODES }
{
    let crumb = Crumb {
        trace: TraceId(u128::from(trace)),
        node: NodeId(node),
    };
    match index.crumb(crumb) {
        Ok(gone) => gone.is_empty(),
        Err(_) => false,
    }
}

/// Gives the index a crumb of trace 4 and chunks of the traces 1 and 2. Answers whether nothing goes.
fn takes_crumb(index: &mut TraceIndex<()>, chunks: &mut List<Chunk>) -> bool {
    drops_crumb(index, 4, 2)
        && is_none(arrive(index, chunks.pop(), 1))
        && is_none(arrive(index, chunks.pop(), 2))
        && holds(index, 2, 3)
}

/// Gives the index a third chunk. Answers whether trace 4 goes with its crumb, and then the chunk of trace 1.
fn forgets_crumb(index: &mut TraceIndex<()>, chunks: &mut List<Chunk>) -> bool {
    are_gone(arrive(index, chunks.pop(), 3), 1, 1023, 3, 3)
        && index.crumbs(TraceId(4)) == NodeSet(0)
        && holds(index, 2, 2)
}

/// A crumb of trace 4 and then chunks of 1, 2, 3, of which two may stay. Trace 4 goes first, and its crumb
/// with it; then trace 1, with the counts as they are by then.
fn a_crumb_alone_goes_first(alloc: Global) -> Result<bool, Memory> {
    let mut chunks = Stock::make(alloc, MAX_THRESHOLD, MIN_SIZE)?;
    let mut index = TraceIndex::make(alloc, 2, 8)?;
    Ok(takes_crumb(&mut index, &mut chunks) && forgets_crumb(&mut index, &mut chunks))
}

/// Gives the index 1,024 chunks, each of a trace of its own from 0 on. Answers how many were kept beside those before.
fn fills(index: &mut TraceIndex<()>, chunks: &mut List<Chunk>) -> u32 {
    let mut kept = 0u32;
    for trace in 0..MAX_THRESHOLD {
        if is_none(arrive(index, chunks.pop(), trace)) {
            kept = kept.wrapping_add(1);
        }
    }
    kept
}

/// Gives the index crumbs of the traces from 1,025 to 65,536. Answers how many of them let nothing go.
fn drops_crumbs(index: &mut TraceIndex<()>) -> u32 {
    let mut quiet = 0u32;
    for trace in MAX_THRESHOLD + 1..MAX_TRACES + 1 {
        if drops_crumb(index, trace, 15) {
            quiet = quiet.wrapping_add(1);
        }
    }
    quiet
}

/// Fills the index with chunks and crumbs, and gives it a chunk more. Answers whether the trace that came first goes, and nothing else.
fn takes_most(
    index: &mut TraceIndex<()>,
    chunks: &mut List<Chunk>,
    more: &mut List<Chunk>,
) -> bool {
    fills(index, chunks) == MAX_THRESHOLD
        && are_gone(arrive(index, more.pop(), 1024), 1, 1023, 1025, 1025)
        && drops_crumbs(index) == MAX_TRACES - MAX_THRESHOLD
        && holds(index, MAX_THRESHOLD, MAX_TRACES)
}

/// Gives the full index a chunk of a trace more, and one of a trace with a crumb, which is claimed then.
fn takes_more(index: &mut TraceIndex<()>, more: &mut List<Chunk>) -> bool {
    are_gone(arrive(index, more.pop(), 65_537), 1, 1022, 1025, 65_537)
        && are_gone(arrive(index, more.pop(), 2000), 1, 1021, 1025, 65_536)
        && holds(index, MAX_THRESHOLD, MAX_TRACES - 1)
        && claims(index, 2000, 1, Some(1021), NodeSet(1 << 15))
}

/// Whether the last chunks are those with the numbers from 0 to 1,020. Takes them out.
fn pops_most(left: &mut List<Held<()>>) -> bool {
    let mut right = true;
    for number in 0..1021u32 {
        right &= pops(left, number);
    }
    right
}

/// Whether the chunks are left from 1020 down to 0, and behind them 1023 and 1022.
fn leaves_most(index: TraceIndex<()>) -> Result<bool, Memory> {
    let mut left = index.finish()?;
    Ok(pops(&mut left, 1022) && pops(&mut left, 1023) && pops_most(&mut left) && left.is_empty())
}

/// 1,024 traces with a chunk each and 64,512 with a crumb alone are the most that may stay. A further chunk lets the
/// trace go that came first. At the end the chunks of the traces 3 to 1,024 are left, and behind them that of the trace that
/// came last.
fn most_traces_stay(alloc: Global) -> Result<bool, Memory> {
    let mut chunks = Stock::make(alloc, MAX_THRESHOLD, MIN_SIZE)?;
    let mut more = Stock::make(alloc, MAX_THRESHOLD, MIN_SIZE)?;
    let mut index = TraceIndex::make(alloc, MAX_THRESHOLD, MAX_TRACES)?;
    let taken = takes_most(&mut index, &mut chunks, &mut more) && takes_more(&mut index, &mut more);
    Ok(leaves_most(index)? && taken)
}

/// Gives the index 1,024 chunks of trace 7. Answers whether all were kept.
fn fills_one(index: &mut TraceIndex<()>, chunks: &mut List<Chunk>) -> bool {
    let mut kept = true;
    for _count in 0..MAX_THRESHOLD {
        kept &= is_none(arrive(index, chunks.pop(), 7));
    }
    kept
}

/// Gives the index 1,024 chunks of trace 7, claims them, and gives it as many again.
fn claims_whole(
    index: &mut TraceIndex<()>,
    chunks: &mut List<Chunk>,
    more: &mut List<Chunk>,
) -> bool {
    fills_one(index, chunks)
        && claims(index, 7, MAX_THRESHOLD as usize, Some(1023), NodeSet(0))
        && fills_one(index, more)
}

/// A trace of 1,024 chunks is claimed whole, and one of 1,025 goes whole.
fn a_trace_of_all_chunks_goes_whole(alloc: Global) -> Result<bool, Memory> {
    let last = Stock::make(alloc, 1, MIN_SIZE)?.pop();
    let mut chunks = Stock::make(alloc, MAX_THRESHOLD, MIN_SIZE)?;
    let mut more = Stock::make(alloc, MAX_THRESHOLD, MIN_SIZE)?;
    let mut index = TraceIndex::make(alloc, MAX_THRESHOLD, MAX_TRACES)?;
    let claimed = claims_whole(&mut index, &mut chunks, &mut more);
    let gone = are_gone(arrive(&mut index, last, 7), 1025, 1023, 1025, 1);
    Ok(claimed && gone && holds(&index, 0, 0))
}

/// Gives an index where nothing may stay a crumb and a chunk. Answers whether the crumb is forgotten, and the chunk goes.
fn keeps_nothing(index: &mut TraceIndex<()>, chunks: &mut List<Chunk>) -> bool {
    drops_crumb(index, 1, 0)
        && holds(index, 0, 0)
        && are_gone(arrive(index, chunks.pop(), 1), 1, 0, 1, 1)
        && claims(index, 1, 0, None, NodeSet(0))
}

/// Where nothing may stay, nothing is left.
fn nothing_stays(alloc: Global) -> Result<bool, Memory> {
    let mut chunks = Stock::make(alloc, 1, MIN_SIZE)?;
    let mut index = TraceIndex::make(alloc, 0, 0)?;
    let kept_nothing = keeps_nothing(&mut index, &mut chunks);
    Ok(index.finish()?.is_empty() && kept_nothing)
}

/// Gives the index two chunks of trace 1, one of trace 2 and a crumb of trace 4. Answers whether nothing goes.
fn takes_three(index: &mut TraceIndex<()>, chunks: &mut List<Chunk>) -> bool {
    is_none(arrive(index, chunks.pop(), 1))
        && is_none(arrive(index, chunks.pop(), 2))
        && is_none(arrive(index, chunks.pop(), 1))
        && drops_crumb(index, 4, 2)
}

/// Whether traces 1 and 2 have two chunks and one, trace 4 has its crumb alone, and trace 7 is not there.
fn counts_three(index: &TraceIndex<()>) -> bool {
    counts(index, 1, 2) && counts(index, 2, 1) && counts(index, 4, 0) && counts(index, 7, 0)
}

/// A trace that is counted is touched by that no more than before: of three chunks that may stay, a fourth lets the one of
/// trace 2 go. A trace that is claimed has none.
fn each_trace_is_counted(alloc: Global) -> Result<bool, Memory> {
    let mut chunks = Stock::make(alloc, 4, MIN_SIZE)?;
    let mut index = TraceIndex::make(alloc, 3, 8)?;
    let none = counts(&index, 1, 0);
    let counted = takes_three(&mut index, &mut chunks) && counts_three(&index);
    let gone = are_gone(arrive(&mut index, chunks.pop(), 3), 1, 2, 4, 4);
    let claimed = claims(&mut index, 1, 2, Some(3), NodeSet(0)) && counts(&index, 1, 0);
    Ok(none && counted && gone && claimed)
}

#[test]
fn indexes(rt: HostRuntime) {
    row(
        &rt,
        "a crumb alone goes first",
        a_crumb_alone_goes_first(rt.alloc()),
    );
    row(&rt, "nothing stays", nothing_stays(rt.alloc()));
    row(
        &rt,
        "each trace is counted",
        each_trace_is_counted(rt.alloc()),
    );
    row(&rt, "most traces stay", most_traces_stay(rt.alloc()));
    row(
        &rt,
        "a trace goes whole",
        a_trace_of_all_chunks_goes_whole(rt.alloc()),
    );
}
