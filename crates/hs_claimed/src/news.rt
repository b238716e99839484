//! What is new in a standing.

ghost use Rattle.std.specs.Prelude.{◌≡◌};
ghost use Rattle.hs_claimed.specs.News.{same_wholeness, same_losses, same_word, knows_nothing, is_news};

use hs_wire::{Losses, Standing, Wholeness};

/// Whether two are as whole.
fn same_wholeness(one: Wholeness, other: Wholeness) -> bool
    ensures { result ≡ same_wholeness one other }
{
    match one {
        Wholeness::WholeSince => matches!(other, Wholeness::WholeSince),
        Wholeness::Lost => matches!(other, Wholeness::Lost),
        Wholeness::UnheardSince => matches!(other, Wholeness::UnheardSince),
        Wholeness::Unknown => matches!(other, Wholeness::Unknown),
        Wholeness::Open => matches!(other, Wholeness::Open),
    }
}

/// Whether as much was lost, by each cause.
fn same_losses(one: &Losses, other: &Losses) -> bool
    ensures { result ≡ same_losses one.now other.now }
{
    one.null_pages == other.null_pages
        && one.full_points == other.full_points
        && one.dry_points == other.dry_points
        && one.long_points == other.long_points
        && one.refused_crumbs == other.refused_crumbs
        && one.evicted_crumbs == other.evicted_crumbs
        && one.forgotten_crumbs == other.forgotten_crumbs
        && one.evicted_pages == other.evicted_pages
        && one.abandoned_pages == other.abandoned_pages
}

/// Whether two standings of a trace and a group say the same, their horizons aside.
fn same_word(one: &Standing, other: &Standing) -> bool
    ensures { result ≡ same_word one.now other.now }
{
    same_wholeness(one.wholeness, other.wholeness)
        && one.open_segments == other.open_segments
        && one.pages == other.pages
        && one.crumbs == other.crumbs
        && same_losses(&one.losses, &other.losses)
}

/// Whether nothing is known of a trace: it is unheard, and no crumb of it led anywhere.
fn knows_nothing(standing: &Standing) -> bool
    ensures { result ≡ knows_nothing standing.now }
{
    same_wholeness(standing.wholeness, Wholeness::UnheardSince) && standing.crumbs.is_empty()
}

/// Whether a standing is news where this one was said last, or none: it says something else than that its horizon moved, or that its trace
/// was forgotten.
pub fn is_news(said: &Option<Standing>, standing: &Standing) -> bool
    ensures { result ≡ is_news said.now standing.now }
{
    match said {
        Some(last) => !same_word(last, standing) && !knows_nothing(standing),
        None => true,
    }
}
