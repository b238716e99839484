//! The second time that a client does its operations.

ghost use Rattle.std.specs.Prelude.{◌≡◌, ◌+◌, ◌<◌, length, map, IfOk, OnOk};
ghost use Rattle.hs_client.specs.Playable.{IsPlayable};
ghost use Rattle.hs_records.specs.Pages.{pages_of};
ghost use Rattle.hs_records.specs.Plain.{settings_of};
ghost use Rattle.hs_words.specs.Buffers.{buffer_in};
ghost use Rattle.hs_records.specs.Views.{operation_of};
ghost use Rattle.hs_check_follow.specs.Fillings.{IsSecondPlay, MayPlay, PlaysOn, Plays};

use crate::script::DrawScript;
use hs_base::{AutoRule, ClientId, Memory, Settings};
use hs_client::sending_laws::{
    all_is_sent_in_the_end, timed_pages_are_the_pages, timed_pages_are_timely,
};
use hs_records::{Draw, Op};
use hs_replay_client::ReplayClient;
use hs_words::Held;
use std::alloc::Global;

/// A client that does its operations once more, each no earlier than a chunk is asked for that needs it. So it holds the page that is
/// open then, and what else the last operation sent.
#[derive(Drop)]
pub(crate) struct SecondPlay {
    pub(crate) script: DrawScript,
    pub(crate) player: ReplayClient,
}

impl SecondPlay {
    /// A client of a valid workload with these settings and operations, at these draws, one for each of its pages.
    pub(crate) fn make(
        alloc: Global,
        client: ClientId,
        settings: &Settings,
        operations: &[Op],
        draws: &[Draw],
    ) -> Result<SecondPlay, Memory>
        requires playable { IsPlayable (settings_of settings.now) (map operation_of operations.now) }
        requires each { length draws.now ≡ length (pages_of settings.now.size (map operation_of operations.now)) }
        ensures { IfOk result (IsSecondPlay (settings_of settings.now) client (map operation_of operations.now) draws.now 0) }
    {
        let script = DrawScript::make(alloc, settings.size, draws)?;
        let player = ReplayClient::make(alloc, client, settings, operations)?;
        Ok(SecondPlay { script, player })
    }

    /// The next chunk, or `None` where all were filled. These are the rules of the autotriggers and the operations with which it was
    /// made. Where it answers that memory is wanted, it is of no more use.
    pub(crate) fn next(
        &mut self,
        rules: &[AutoRule],
        operations: &[Op],
    ) -> Result<Option<Held<()>>, Memory>
        requires { MayPlay rules.now (map operation_of operations.now) self.old }
        ensures { IfOk result (λ held. Plays rules.now (map operation_of operations.now) self.old (buffer_in held) self.new) }
    {
        timed_pages_are_the_pages();
        timed_pages_are_timely();
        all_is_sent_in_the_end();
        'operations: while self.player.has_left(operations) {
            if let Some(held) = self.player.next_chunk() {
                return Ok(Some(held));
            }
            self.play_operation(rules, operations)?;
        }
        Ok(self.player.next_chunk())
    }

    /// Does one operation more. Of what that sends it keeps the chunks alone.
    fn play_operation(&mut self, rules: &[AutoRule], operations: &[Op]) -> Result<(), Memory>
        requires may { MayPlay rules.now (map operation_of operations.now) self.old }
        requires left { self.old.player.done < length operations.now }
        ensures done { OnOk result (self.new.player.done ≡ self.old.player.done + 1) }
        ensures plays { OnOk result (PlaysOn rules.now (map operation_of operations.now) self.old self.new) }
    {
        timed_pages_are_the_pages();
        self.player
            .play_from(&mut self.script, rules, operations, 1)?;
        if self.player.is_bare() {
            return Ok(());
        }
        let _crumb = self.player.next_crumb();
        let _trigger = self.player.next_trigger();
        Ok(())
    }
}
