//! What one client sends of its operations, by the draws that a journal has of it.

ghost use Rattle.std.specs.Prelude.{◌≡◌, length, map, IfOk};
ghost use Rattle.hs_client.specs.Calls.{note_of};
ghost use Rattle.hs_records.specs.Books.{client_book_of};
ghost use Rattle.hs_records.specs.Pages.{pages_of};
ghost use Rattle.hs_records.specs.Plain.{settings_of};
ghost use Rattle.hs_client.specs.Playable.{IsPlayable};
ghost use Rattle.hs_replay_client.specs.Places.{IsDone};
ghost use Rattle.hs_replay_client.specs.ReplayClients.{PlainReplayClient};
ghost use Rattle.hs_records.specs.Views.{operation_of};
ghost use Rattle.hs_check_follow.specs.Gathering.{AllIsSentBy};
ghost use Rattle.hs_check_follow.specs.Sendings.{IsFollowedClient, NotesBut};

use crate::filling::Filling;
use crate::found::FoundClient;
use crate::gathering::Gathering;
use crate::keeping::may_keep;
use crate::script::DrawScript;
use hs_base::{ClientId, Crumb, List, Memory, Settings, Trigger};
use hs_client::sending_laws::{
    all_is_sent_in_the_end, timed_pages_are_the_pages, timed_pages_are_timely,
};
use hs_records::{ClientBook, Draw, Op};
use hs_replay_client::ReplayClient;
use std::alloc::Global;
use std::collections::VecDeque;

/// What a client sends at the draws of a journal: its chunks, which are kept or filled one by one when they are asked for, its crumbs and
/// triggers, all in order and with the number of the operation that sends them, and what it notes. The buffers of the chunks have numbers
/// of their own, and not those of the draws.
#[derive(Drop)]
pub struct FollowedClient {
    pub chunks: Filling,
    pub crumbs: VecDeque<Crumb>,
    pub triggers: VecDeque<Trigger>,
    pub found: FoundClient,
    pub book: ClientBook,
}

/// What a client of a valid workload with these settings and operations sends at these draws, one for each of its pages.
pub fn send(
    alloc: Global,
    client: ClientId,
    settings: &Settings,
    operations: &[Op],
    draws: &[Draw],
) -> Result<FollowedClient, Memory>
    requires playable { IsPlayable (settings_of settings.now) (map operation_of operations.now) }
    requires each { length draws.now ≡ length (pages_of settings.now.size (map operation_of operations.now)) }
    ensures { IfOk result (IsFollowedClient (settings_of settings.now) client (map operation_of operations.now) draws.now) }
{
    let (player, gathering) = gather(alloc, client, settings, operations, draws)?;
    let book = book_of(alloc, player, draws)?;
    followed(alloc, client, settings, operations, draws, gathering, book)
}

/// Lets the client do all its operations, and takes what they send.
fn gather(
    alloc: Global,
    client: ClientId,
    settings: &Settings,
    operations: &[Op],
    draws: &[Draw],
) -> Result<(ReplayClient, Gathering), Memory>
    requires playable { IsPlayable (settings_of settings.now) (map operation_of operations.now) }
    requires each { length draws.now ≡ length (pages_of settings.now.size (map operation_of operations.now)) }
    ensures { IfOk result (λ sent. AllIsSentBy (settings_of settings.now) client (map operation_of operations.now) draws.now sent.0 sent.1) }
{
    let keeps = may_keep(settings.size, operations, draws);
    let mut script = DrawScript::make(alloc, settings.size, draws)?;
    let mut player = ReplayClient::make(alloc, client, settings, operations)?;
    let mut gathering = Gathering::new(alloc, keeps);
    let rules = settings.autos.as_slice();
    gathering.gather_all(rules, operations, &mut script, &mut player)?;
    Ok((player, gathering))
}

/// What the client noted, with these draws in the place of its own.
fn book_of(alloc: Global, player: ReplayClient, draws: &[Draw]) -> Result<ClientBook, Memory>
    requires { IsDone player }
    ensures { IfOk result (λ book. NotesBut draws.now player (client_book_of book)) }
{
    let mut draws_noted = List::new(alloc);
    draws_noted.append_slice(draws)?;
    let noted = player.finish();
    Ok(ClientBook {
        client: noted.client,
        draws: draws_noted,
        pages: noted.pages,
    })
}

/// The client, of which all was taken, with its book.
fn followed(
    alloc: Global,
    client: ClientId,
    settings: &Settings,
    operations: &[Op],
    draws: &[Draw],
    gathering: Gathering,
    book: ClientBook,
) -> Result<FollowedClient, Memory>
    requires playable { IsPlayable (settings_of settings.now) (map operation_of operations.now) }
    requires sent { (player : PlainReplayClient) × AllIsSentBy (settings_of settings.now) client (map operation_of operations.now) draws.now player gathering }
    requires book { client_book_of book ≡ record { client = client; draws = draws.now; pages = map note_of (pages_of settings.now.size (map operation_of operations.now)) } }
    ensures { IfOk result (IsFollowedClient (settings_of settings.now) client (map operation_of operations.now) draws.now) }
{
    all_is_sent_in_the_end();
    timed_pages_are_the_pages();
    timed_pages_are_timely();
    let Gathering {
        keeping,
        crumbs,
        triggers,
        found,
    } = gathering;
    let chunks = Filling::make(alloc, client, settings, operations, draws, keeping)?;
    Ok(FollowedClient {
        chunks,
        crumbs,
        triggers,
        found,
        book,
    })
}
