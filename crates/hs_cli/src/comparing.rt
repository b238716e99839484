//! What `compare` answers for a workload.

ghost use Rattle.std.specs.Prelude.{◌≡◌, IfOk};
ghost use Rattle.hs_cli.specs.Commands.{AreSamplers};
ghost use Rattle.hs_cli.specs.Endings.{compared_text};
ghost use Rattle.hs_compare.specs.Plain.{plain_comparison};
ghost use Rattle.hs_law_run.specs.Lockstep.{lockstep};
ghost use Rattle.hs_compare.specs.SamplerLaws.{compared_by};
ghost use Rattle.hs_records.specs.Validity.{IsValid};
ghost use Rattle.hs_records.specs.Views.{workload_of};

use hs_base::{Bytes, Memory};
use hs_compare::{Comparison, compare, write_comparison};
use hs_records::Workload;
use hs_replay::replay;
use std::alloc::Global;

/// What each sampler keeps of a workload, beside what Hindsight keeps of its replay.
fn compared(
    alloc: Global,
    workload: &Workload,
    one_in: u32,
    room: u32,
) -> Result<Comparison, Memory>
    requires valid { IsValid (workload_of workload.now) }
    requires samplers { AreSamplers one_in room }
    ensures { IfOk result (λ c. plain_comparison c ≡ compared_by (workload_of workload.now) (lockstep (workload_of workload.now)) one_in room) }
{
    let outcome = replay(alloc, workload)?;
    compare(alloc, workload, &outcome, one_in, room)
}

/// The text of a comparison: what this workload comes to by the lockstep schedule, beside what other samplers keep of it
/// (`docs/FORMATS.md`, "The program").
pub(crate) fn comparison(
    alloc: Global,
    workload: &Workload,
    one_in: u32,
    room: u32,
) -> Result<Bytes, Memory>
    requires valid { IsValid (workload_of workload.now) }
    requires samplers { AreSamplers one_in room }
    ensures { IfOk result (λ text. text.items ≡ compared_text (workload_of workload.now) one_in room) }
{
    let comparison = compared(alloc, workload, one_in, room)?;
    let text = write_comparison(alloc, &comparison)?;
    Ok(text)
}
