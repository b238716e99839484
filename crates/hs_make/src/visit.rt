//! What a request does at one node.

ghost use Rattle.std.specs.Prelude.{◌≡◌, ◌+◌, ◌*◌, ◌^◌, ◌<◌, ◌++◌, OnOk};
ghost use Rattle.hs_records.specs.Views.{operations_of};
ghost use Rattle.hs_make.specs.Words.{words_from, from};
ghost use Rattle.hs_make.specs.Made.{point_count, behind_points, points_at, samples_at, visit_at, behind_visit};

use crate::draws::{draw_payload, pick};
use hs_base::{List, Memory, NodeId, TraceId};
use hs_records::Op;
use rand_xoshiro::Xoshiro256PlusPlus;
use std::alloc::Global;

/// The most points of a request at a node. There is at least one.
const MOST_POINTS: u64 = 4;

/// From one request to the next, in microseconds.
const REQUEST_STEP: u64 = 1000;

/// From one node to the next, in microseconds.
const NODE_STEP: u64 = 10;

/// From the beginning of a request to the samples of its latency and of its failure, in microseconds.
const LATENCY_AT: u64 = 500;

const FAILURE_AT: u64 = 501;

/// The autotriggers that these samples are for.
const LATENCY_AUTO: u32 = 1;

const FAILURE_AUTO: u32 = 0;

/// The least latency of a request, and how many latencies there are from it on, in microseconds.
const LEAST_LATENCY: u64 = 1000;

const LATENCIES: u64 = 1000;

/// One request in so many fails.
const FAILS_ONCE_IN: u64 = 50;

/// A request at one of the nodes that it visits, from node 0 on.
#[derive(Clone, Copy)]
pub(crate) struct Visit {
    pub request: u32,
    pub trace: TraceId,
    /// How many nodes the request visits.
    pub depth: u16,
    pub node: u16,
}

/// Draws the points of a visit, the first of which comes at this moment, and adds them.
fn draw_points(
    alloc: Global,
    generator: &mut Xoshiro256PlusPlus,
    moment: u64,
    operations: &mut List<Op>,
) -> Result<(), Memory>
    requires { moment + 4 < 2 ^ 64 }
    ensures points { OnOk result (operations_of operations.new ≡ operations_of operations.old ++ points_at moment (words_from generator.old)) }
    ensures rest { OnOk result (words_from generator.new ≡ behind_points (point_count (words_from generator.old)) (words_from generator.old)) }
{
    let points = 1 + pick(generator, MOST_POINTS);
    for point in 0..points {
        let payload = draw_payload(alloc, generator)?;
        operations.append(Op::Point {
            moment: moment + point,
            payload,
        })?;
    }
    Ok(())
}

/// Draws the latency of a request and whether it fails, and adds the samples that say so.
fn draw_samples(
    generator: &mut Xoshiro256PlusPlus,
    request: u32,
    operations: &mut List<Op>,
) -> Result<(), Memory>
    ensures samples { OnOk result (operations_of operations.new ≡ operations_of operations.old ++ samples_at request (words_from generator.old)) }
    ensures rest { OnOk result (words_from generator.new ≡ from 2 (words_from generator.old)) }
{
    let moment = REQUEST_STEP * u64::from(request);
    let latency = LEAST_LATENCY + pick(generator, LATENCIES);
    operations.append(Op::Sample {
        moment: moment + LATENCY_AT,
        auto: LATENCY_AUTO,
        value: latency,
    })?;
    if pick(generator, FAILS_ONCE_IN) == 0 {
        operations.append(Op::Sample {
            moment: moment + FAILURE_AT,
            auto: FAILURE_AUTO,
            value: 1,
        })?;
    }
    Ok(())
}

/// Draws a visit, and adds its operations to those of its client.
pub(crate) fn draw_visit(
    alloc: Global,
    generator: &mut Xoshiro256PlusPlus,
    visit: Visit,
    operations: &mut List<Op>,
) -> Result<(), Memory>
    requires { visit.node < visit.depth }
    ensures visited { OnOk result (operations_of operations.new ≡ operations_of operations.old ++ visit_at visit.request visit.trace visit.depth visit.node (words_from generator.old)) }
    ensures rest { OnOk result (words_from generator.new ≡ behind_visit visit.node (words_from generator.old)) }
{
    let moment = REQUEST_STEP * u64::from(visit.request) + NODE_STEP * u64::from(visit.node);
    operations.append(Op::Begin { trace: visit.trace })?;
    draw_points(alloc, generator, moment, operations)?;
    let next = visit.node + 1;
    if next < visit.depth {
        operations.append(Op::Crumb { node: NodeId(next) })?;
    }
    if visit.node == 0 {
        draw_samples(generator, visit.request, operations)?;
    }
    operations.append(Op::End)
}
