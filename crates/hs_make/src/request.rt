//! One request.

ghost use Rattle.std.specs.Prelude.{◌≡◌, map, vec_len, OnOk};
ghost use Rattle.hs_records.specs.Views.{operations_of};
ghost use Rattle.hs_make.specs.Words.{words_from};
ghost use Rattle.hs_make.specs.Made.{request_at, Adds, behind_request};

use crate::draws::{draw, pick};
use crate::visit::{Visit, draw_visit};
use hs_base::{List, Memory, TraceId};
use hs_records::Op;
use rand_xoshiro::Xoshiro256PlusPlus;
use std::alloc::Global;

/// The nodes of a made workload.
pub(crate) const MADE_NODES: u16 = 3;

/// The clients of each node of a made workload.
pub(crate) const MADE_CLIENTS: u16 = 4;

/// Draws the request of this number, and adds its operations to those of the clients that it visits,
/// which stand in the order of node and number.
pub(crate) fn draw_request(
    alloc: Global,
    generator: &mut Xoshiro256PlusPlus,
    request: u32,
    clients: &mut Vec<List<Op>>,
) -> Result<(), Memory>
    requires { vec_len clients.old ≡ 12 }
    ensures len { OnOk result (vec_len clients.new ≡ 12) }
    ensures added { OnOk result (Adds (request_at request (words_from generator.old)) (map operations_of clients.old.items) (map operations_of clients.new.items)) }
    ensures rest { OnOk result (words_from generator.new ≡ behind_request (words_from generator.old)) }
{
    let trace = TraceId(u128::from(draw(generator)));
    let client = pick(generator, u64::from(MADE_CLIENTS)) as usize;
    let depth = 1 + pick(generator, u64::from(MADE_NODES)) as u16;
    for node in 0..depth {
        let visit = Visit {
            request,
            trace,
            depth,
            node,
        };
        let place = usize::from(MADE_CLIENTS) * usize::from(node) + client;
        draw_visit(alloc, generator, visit, &mut clients[place])?;
    }
    Ok(())
}
