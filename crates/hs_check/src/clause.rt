//! The clauses of the lawful journal.

ghost use Rattle.std.specs.Prelude.{◌≡◌};
ghost use Rattle.hs_check.specs.Clauses.{number_of, clause_word};

/// A clause of the lawful journal (`docs/RULES.md`, "The lawful journal").
#[derive(Clone, Copy)]
pub enum Clause {
    /// The journal has the shape of the workload.
    L1,
    /// Stamps number the events of each node.
    L2,
    /// The events of each pool are a history of it.
    L3,
    /// A give answers the draw of its chunk.
    L4,
    /// Every log is one whole pass after another.
    L5,
    /// In each pass all offers are made.
    L6,
    /// What is unread could be.
    L7,
    /// The journal can be followed.
    L8,
    /// There are passes enough, and everywhere as many.
    L9,
    /// Nothing is left over.
    L10,
    /// Agents and coordinator keep pace.
    L11,
}

impl Clause {
    /// The number of the clause, 1 to 11.
    pub fn number(self) -> u8
        ensures { result ≡ number_of self }
    {
        match self {
            Clause::L1 => 1,
            Clause::L2 => 2,
            Clause::L3 => 3,
            Clause::L4 => 4,
            Clause::L5 => 5,
            Clause::L6 => 6,
            Clause::L7 => 7,
            Clause::L8 => 8,
            Clause::L9 => 9,
            Clause::L10 => 10,
            Clause::L11 => 11,
        }
    }

    /// The word of the clause: `L` and its number.
    pub fn word(self) -> &'static str
        ensures { result.now ≡ clause_word (number_of self) }
    {
        match self {
            Clause::L1 => "L1",
            Clause::L2 => "L2",
            Clause::L3 => "L3",
            Clause::L4 => "L4",
            Clause::L5 => "L5",
            Clause::L6 => "L6",
            Clause::L7 => "L7",
            Clause::L8 => "L8",
            Clause::L9 => "L9",
            Clause::L10 => "L10",
            Clause::L11 => "L11",
        }
    }
}
