//! The fate of each record.

ghost use Rattle.std.specs.Prelude.{◌≡◌, ◌+◌, ◌<◌, ◌^◌, length};
ghost use Rattle.hs_ledger.specs.Totals.{is_reported};

use hs_base::{Fate, List, RecordId, TraceId};

/// A record with its trace and what became of it.
#[derive(Clone, Copy, Debug, PartialEq, Eq)]
pub struct Entry {
    pub id: RecordId,
    pub trace: TraceId,
    pub fate: Fate,
}

/// How many records there are, and how many of each fate.
#[derive(Clone, Copy, Debug, PartialEq, Eq)]
pub struct Totals {
    pub records: u32,
    pub live: u32,
    pub reported: u32,
    pub null: u32,
    pub evicted: u32,
    pub abandoned: u32,
}

/// A line for each record, sorted by node, then client, then number, and what the lines add up to.
#[derive(Drop)]
pub struct Ledger {
    pub entries: List<Entry>,
    pub totals: Totals,
}

/// Whether this fate is that of a reported record.
pub fn is_reported(fate: Fate) -> bool
    ensures { result ≡ is_reported fate }
{
    matches!(fate, Fate::Reported { .. })
}

impl Totals {
    ghost use Rattle.hs_ledger.specs.Totals.{totals_of, with_fate, parts_of};

    /// Totals before any entry is counted.
    fn none() -> Totals
        ensures { result ≡ record { records = 0; live = 0; reported = 0; null = 0; evicted = 0; abandoned = 0 } }
    {
        Totals {
            records: 0,
            live: 0,
            reported: 0,
            null: 0,
            evicted: 0,
            abandoned: 0,
        }
    }

    /// Counts an entry of this fate.
    fn count(&mut self, fate: Fate)
        requires room { self.old.records + 1 < 2 ^ 32 }
        requires parts { parts_of self.old ≡ self.old.records }
        ensures counted { self.new ≡ with_fate self.old fate }
        ensures parts { parts_of self.new ≡ self.new.records }
    {
        self.records += 1;
        match fate {
            Fate::Live => self.live += 1,
            Fate::Reported { .. } => self.reported += 1,
            Fate::Null { .. } => self.null += 1,
            Fate::Evicted { .. } => self.evicted += 1,
            Fate::Abandoned { .. } => self.abandoned += 1,
        }
    }

    /// Counts the entries.
    pub(crate) fn of(entries: &[Entry]) -> Totals
        requires { length entries.now < 2 ^ 32 }
        ensures totals { result ≡ totals_of entries.now }
        ensures parts { parts_of result ≡ result.records }
    {
        let mut totals = Totals::none();
        for entry in entries {
            totals.count(entry.fate);
        }
        totals
    }
}
