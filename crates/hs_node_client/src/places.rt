//! Places in the outboxes of a client. Where one has too few, what waits is put through first, which stands apart, since outboxes are
//! mostly empty.

ghost use Rattle.std.specs.Prelude.{◌≡◌, true, false};
ghost use Rattle.hs_link.specs.Contents.{HasPlaces};
ghost use Rattle.hs_live.specs.Done.{DoesNothing};
ghost use Rattle.hs_node_client.specs.Clients.{PutsThrough};
ghost use Rattle.hs_node_client.specs.Notes.{Lacks, PutsOn};

use crate::paged::Paged;
use hs_link::{Fact, Sender};

/// Whether so many chunks may be sent.
pub(crate) fn has_chunk_places(client: &mut Paged, places: u32) -> bool
    ensures enough { result ≡ true → HasPlaces places client.new.chunks }
    ensures lacks { result ≡ false → Lacks places client.old.chunks client.new.chunks }
    ensures through { PutsThrough client.old client.new }
    ensures does { DoesNothing client.old client.new }
{
    if client.chunk_places() >= places {
        return true;
    }
    flush_for_chunks(client, places)
}

#[cold]
#[inline(never)]
fn flush_for_chunks(client: &mut Paged, places: u32) -> bool
    ensures enough { result ≡ true → HasPlaces places client.new.chunks }
    ensures lacks { result ≡ false → Lacks places client.old.chunks client.new.chunks }
    ensures through { PutsThrough client.old client.new }
    ensures does { DoesNothing client.old client.new }
{
    client.flush();
    client.chunk_places() >= places
}

/// Whether a crumb may be sent.
pub(crate) fn has_crumb_place(client: &mut Paged) -> bool
    ensures enough { result ≡ true → HasPlaces 1 client.new.crumbs }
    ensures lacks { result ≡ false → Lacks 1 client.old.crumbs client.new.crumbs }
    ensures through { PutsThrough client.old client.new }
    ensures does { DoesNothing client.old client.new }
{
    if client.crumb_places() >= 1 {
        return true;
    }
    flush_for_crumb(client)
}

#[cold]
#[inline(never)]
fn flush_for_crumb(client: &mut Paged) -> bool
    ensures enough { result ≡ true → HasPlaces 1 client.new.crumbs }
    ensures lacks { result ≡ false → Lacks 1 client.old.crumbs client.new.crumbs }
    ensures through { PutsThrough client.old client.new }
    ensures does { DoesNothing client.old client.new }
{
    client.flush();
    client.crumb_places() >= 1
}

/// Whether a trigger may be sent.
pub(crate) fn has_trigger_place(client: &mut Paged) -> bool
    ensures enough { result ≡ true → HasPlaces 1 client.new.triggers }
    ensures lacks { result ≡ false → Lacks 1 client.old.triggers client.new.triggers }
    ensures through { PutsThrough client.old client.new }
    ensures does { DoesNothing client.old client.new }
{
    if client.trigger_places() >= 1 {
        return true;
    }
    flush_for_trigger(client)
}

#[cold]
#[inline(never)]
fn flush_for_trigger(client: &mut Paged) -> bool
    ensures enough { result ≡ true → HasPlaces 1 client.new.triggers }
    ensures lacks { result ≡ false → Lacks 1 client.old.triggers client.new.triggers }
    ensures through { PutsThrough client.old client.new }
    ensures does { DoesNothing client.old client.new }
{
    client.flush();
    client.trigger_places() >= 1
}

/// Whether an item may be sent on a link.
pub(crate) fn has_place<T: Drop, F: Fact<T>>(link: &mut Sender<T, F>) -> bool
    ensures enough { result ≡ true → HasPlaces 1 link.new }
    ensures lacks { result ≡ false → Lacks 1 link.old link.new }
    ensures through { PutsOn link.old link.new }
{
    if link.places() >= 1 {
        return true;
    }
    flush_for_one(link)
}

#[cold]
#[inline(never)]
fn flush_for_one<T: Drop, F: Fact<T>>(link: &mut Sender<T, F>) -> bool
    ensures enough { result ≡ true → HasPlaces 1 link.new }
    ensures lacks { result ≡ false → Lacks 1 link.old link.new }
    ensures through { PutsOn link.old link.new }
{
    link.flush();
    link.places() >= 1
}
