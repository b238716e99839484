//! The table that all ends of a ring share, and what each seat at it knows.
//!
//! Word 0 has the two counts: 2^24 times the number drawn, and the lead of the number published over it, with 2^23 added. So
//! the lead has room for void numbers, which were drawn and not published. Word e + 1 is 0, or one more than the number that was
//! laid at entry e. Slot e holds the chunk of that number.

use atomic_table::{Seat, Shared, Table, TableRule};
use hs_words::Chunk;
use std::alloc::Global;
use std::marker::Model;
use std::snapshot::Snapshot;

/// One drawn number, in word 0, where the lead stands below it.
pub const DRAWN: u64 = 1 << 24;

/// The lead where as many numbers were published as were drawn.
pub const LEVEL: u64 = 1 << 23;

/// What a draw adds to word 0: one drawn number, and the lead is one less.
pub const ONE_DRAW: u64 = (1 << 24) - 1;

/// What a give adds to word 0: the lead is one more.
pub const ONE_GIVE: u64 = 1;

/// How many chunks a pool has, the first of them, which has the size of all, and the allowance of each drawer.
#[derive(Drop)]
pub struct Plan {
    pub buffers: u32,
    pub first: Snapshot<Chunk>,
    pub allowances: Vec<u32>,
}

impl Model for Plan {
    ghost use Rattle.hs_words.specs.Plans.{Plan as TheValue};

    ghost Value = { TheValue };

    ghost view = { λ p. record { buffers = p.buffers; size = p.first.value.size; allowances = p.allowances.items } };
}

/// What a seat knows, which exists in proofs alone.
pub struct View;

impl Model for View {
    ghost use Rattle.hs_ring.specs.Views.{View as TheValue, nobody};

    ghost Value = { TheValue };

    ghost view = { λ _. nobody };
}

/// The rule of the table.
pub struct Law;

impl TableRule<Option<Chunk>, View, Plan> for Law {
    ghost use Rattle.hs_ring.specs.Rule.{RingRule, first_view};

    ghost holds = { RingRule };

    ghost first = { first_view };
}

pub type Board = Table<Option<Chunk>, View, Plan, Law, Global>;

pub type Entries = Shared<Option<Chunk>, View, Plan, Law>;

pub type Place = Seat<Option<Chunk>, View>;
