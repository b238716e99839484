//! Values with how often they stand in a window.

ghost use Rattle.std.specs.Prelude.{◌≡◌, ℕ, ◌+◌, ◌<◌, ◌≤◌, ◌^◌, ◌==◌, if◌then◌else◌, vec_len, vec_capacity};
ghost use Rattle.hs_auto.specs.ValueCounts.{AreValueCounts, IsPlace, times, total};

/// A value, and how often it stands in the window: at least once.
#[derive(Clone, Copy)]
pub struct ValueCount {
    pub value: u64,
    pub count: usize,
}

/// How often a value stands in the window.
pub fn times_of(counts: &[ValueCount], value: u64) -> usize
    requires { AreValueCounts counts.now }
    ensures { result ≡ times counts.now value }
{
    let place = place_of(counts, value);
    if place < counts.len() && counts[place].value == value {
        return counts[place].count;
    }
    0
}

/// Counts a value that joins the window. There is room for one more counted.
pub fn add(counts: &mut Vec<ValueCount>, value: u64)
    requires counts { AreValueCounts counts.old.items }
    requires room { vec_len counts.old < vec_capacity counts.old }
    requires small { total counts.old.items + 1 < 2 ^ 64 }
    ensures counts { AreValueCounts counts.new.items }
    ensures times { (v : ℕ) → times counts.new.items v
        ≡ times counts.old.items v + (if value == v then 1 else 0) }
    ensures total { total counts.new.items ≡ total counts.old.items + 1 }
    ensures capacity { vec_capacity counts.old ≤ vec_capacity counts.new }
{
    let place = place_of(counts, value);
    if place < counts.len() && counts[place].value == value {
        let count = counts[place].count + 1;
        counts[place] = ValueCount { value, count };
        return;
    }
    match counts.insert(place, ValueCount { value, count: 1 }) {
        Ok(()) => {}
        Err(_) => unreachable!(),
    }
}

/// Counts a value that leaves the window. It stands there.
pub fn take_out(counts: &mut Vec<ValueCount>, value: u64)
    requires counts { AreValueCounts counts.old.items }
    requires there { 0 < times counts.old.items value }
    ensures counts { AreValueCounts counts.new.items }
    ensures times { (v : ℕ) → times counts.old.items v
        ≡ times counts.new.items v + (if value == v then 1 else 0) }
    ensures total { total counts.old.items ≡ total counts.new.items + 1 }
    ensures capacity { vec_capacity counts.new ≡ vec_capacity counts.old }
{
    let place = place_of(counts, value);
    let count = counts[place].count;
    if count == 1 {
        counts.remove(place);
        return;
    }
    counts[place] = ValueCount {
        value,
        count: count - 1,
    };
}

/// Where a value stands in order, or would stand.
fn place_of(counts: &[ValueCount], value: u64) -> usize
    requires { AreValueCounts counts.now }
    ensures { IsPlace counts.now value result }
{
    counts.partition_point(|counted| counted.value < value)
}
