//! The chunks of a client that are still to be taken.

ghost use Rattle.std.specs.Prelude.{◌≡◌, length, map, IfOk};
ghost use Rattle.hs_client.specs.Playable.{IsPlayable};
ghost use Rattle.hs_client.specs.Sending.{sends_of};
ghost use Rattle.hs_records.specs.Pages.{pages_of};
ghost use Rattle.hs_records.specs.Plain.{settings_of};
ghost use Rattle.hs_words.specs.Buffers.{buffer_in};
ghost use Rattle.hs_records.specs.Views.{operation_of};
ghost use Rattle.hs_check_follow.specs.Fillings.{IsFilling, MayFill, Fills};
ghost use Rattle.hs_check_follow.specs.Keepings.{KeepsAll};

use crate::keeping::Keeping;
use crate::second_play::SecondPlay;
use hs_base::{AutoRule, ClientId, Memory, Settings};
use hs_records::{Draw, Op};
use hs_words::Held;
use std::alloc::Global;
use std::collections::VecDeque;

/// The chunks of a client that are still to be taken.
#[derive(Drop)]
pub struct Filling {
    pub(crate) client: ClientId,
    pub(crate) left: ChunksLeft,
}

/// The chunks themselves where they were kept, or else the client, which fills each when it is asked for.
#[derive(Drop)]
pub(crate) enum ChunksLeft {
    Kept { chunks: VecDeque<Held<()>> },
    Played { play: SecondPlay },
}

impl Filling {
    /// All chunks of a client of a valid workload with these settings and operations, at these draws, one for each of its pages. This
    /// was kept of them.
    pub(crate) fn make(
        alloc: Global,
        client: ClientId,
        settings: &Settings,
        operations: &[Op],
        draws: &[Draw],
        keeping: Keeping,
    ) -> Result<Filling, Memory>
        requires playable { IsPlayable (settings_of settings.now) (map operation_of operations.now) }
        requires each { length draws.now ≡ length (pages_of settings.now.size (map operation_of operations.now)) }
        requires kept { KeepsAll settings.now.size (sends_of (settings_of settings.now) client (map operation_of operations.now) draws.now).chunks keeping }
        ensures { IfOk result (IsFilling (settings_of settings.now) client (map operation_of operations.now) draws.now 0) }
    {
        if keeping.keeps {
            return Ok(Filling {
                client,
                left: ChunksLeft::Kept {
                    chunks: keeping.chunks,
                },
            });
        }
        let play = SecondPlay::make(alloc, client, settings, operations, draws)?;
        Ok(Filling {
            client,
            left: ChunksLeft::Played { play },
        })
    }

    /// Whose chunks they are.
    pub fn client(&self) -> ClientId
        ensures { result ≡ self.now.client }
    {
        self.client
    }

    /// The next chunk, or `None` where all were filled. These are the rules of the autotriggers and the operations with which it was
    /// made. Where it answers that memory is wanted, it is of no more use.
    pub fn next(
        &mut self,
        rules: &[AutoRule],
        operations: &[Op],
    ) -> Result<Option<Held<()>>, Memory>
        requires { MayFill rules.now (map operation_of operations.now) self.old }
        ensures { IfOk result (λ held. Fills rules.now (map operation_of operations.now) self.old (buffer_in held) self.new) }
    {
        match &mut self.left {
            ChunksLeft::Kept { chunks } => Ok(chunks.pop_front()),
            ChunksLeft::Played { play } => play.next(rules, operations),
        }
    }
}
