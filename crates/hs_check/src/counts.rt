//! Lists of counts.

ghost use Rattle.std.specs.Prelude.{◌≡◌, ◌+◌, ◌<◌, ◌^◌, [], ◌∷◌, ◌++◌, slice_index, OnOk, if◌then◌else◌};
ghost use Rattle.hs_check.specs.Counting.{one_more};

use hs_base::Memory;

/// The count at a place, none past the end.
pub(crate) fn at(counts: &[usize], place: usize) -> usize
    ensures { result ≡ slice_index counts.now place }
{
    match counts.get(place) {
        Some(count) => *count,
        None => 0,
    }
}

/// One more where a test holds.
pub(crate) fn one_more(holds: bool, count: usize) -> usize
    requires { count + 1 < 2 ^ 64 }
    ensures { result ≡ one_more holds count }
{
    if holds { count + 1 } else { count }
}

/// Appends a count where a test holds.
pub(crate) fn push_where(counts: &mut Vec<usize>, holds: bool, count: usize) -> Result<(), Memory>
    ensures { OnOk result (counts.new.items ≡ (if holds then counts.old.items ++ count ∷ [] else counts.old.items)) }
{
    if holds {
        counts.push(count)?;
    }
    Ok(())
}
