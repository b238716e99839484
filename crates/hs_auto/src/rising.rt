//! Values in rising order, as those of a window stand sorted.

ghost use Rattle.std.specs.Prelude.{◌≡◌, ℕ, ◌<◌, ◌≤◌, List, [], ◌∷◌, ◌++◌, count_by, nat_lt, vec_len, vec_capacity};
ghost use Rattle.std.specs.List.{Contains};
ghost use Rattle.std.specs.List.Sorted.{IsNonDecreasing};
ghost use Rattle.hs_auto.specs.Ranks.{StandsSorted, IsPlace};

/// How many are less than this value, and so the first place where it can stand.
pub fn place_of(sorted: &[u64], value: u64) -> usize
    requires { IsNonDecreasing sorted.now }
    ensures place { IsPlace sorted.now value result }
    ensures count { result ≡ count_by (λ earlier. nat_lt earlier value) sorted.now }
{
    sorted.partition_point(|earlier| *earlier < value)
}

/// Takes a value in at its place. There is room for one more.
pub fn put(sorted: &mut Vec<u64>, value: u64, place: usize)
    requires place { IsPlace sorted.old.items value place }
    requires room { vec_len sorted.old < vec_capacity sorted.old }
    ensures joins { (values : List ℕ) → StandsSorted sorted.old.items values
        → StandsSorted sorted.new.items (value ∷ values) }
    ensures capacity { vec_capacity sorted.old ≤ vec_capacity sorted.new }
{
    match sorted.insert(place, value) {
        Ok(()) => {}
        Err(_) => unreachable!(),
    }
}

/// Takes a value in at its place for one that leaves, by one move of the values between their two places.
pub fn exchange(sorted: &mut [u64], leaving: u64, value: u64, to: usize)
    requires rising { IsNonDecreasing sorted.old }
    requires there { Contains sorted.old leaving }
    requires place { IsPlace sorted.old value to }
    ensures { (values : List ℕ) → StandsSorted sorted.old (values ++ leaving ∷ [])
        → StandsSorted sorted.new (value ∷ values) }
{
    let from = place_of(sorted, leaving);
    if from < to {
        sorted.copy_within(from + 1..to, from);
        sorted[to - 1] = value;
    } else {
        sorted.copy_within(to..from, to + 1);
        sorted[to] = value;
    }
}
