//! The table that all ends of a locked pool share, and what each seat at it knows.
//!
//! Word 0 is how many tickets were taken, word 1 how many turns are over. The one slot holds the store.

use crate::store::Store;
use atomic_table::{Seat, Shared, Table, TableRule};
use hs_words::Chunk;
use std::alloc::Global;
use std::marker::Model;
use std::snapshot::Snapshot;

/// The word that counts the tickets.
pub const TICKETS: usize = 0;

/// The word that counts the turns.
pub const TURNS: usize = 1;

/// How many chunks a pool has, the first of them, which has the size of all, and the allowance of each drawer.
#[derive(Drop)]
pub struct Plan {
    pub buffers: u32,
    pub first: Snapshot<Chunk>,
    pub allowances: Vec<u32>,
}

impl Model for Plan {
    ghost use Rattle.hs_words.specs.Plans.{Plan as TheValue};

    ghost Value = { TheValue };

    ghost view = { λ p. record { buffers = p.buffers; size = p.first.value.size; allowances = p.allowances.items } };
}

/// What a seat knows, which exists in proofs alone.
pub struct View;

impl Model for View {
    ghost use Rattle.hs_locked.specs.Views.{View as TheValue, nobody};

    ghost Value = { TheValue };

    ghost view = { λ _. nobody };
}

/// The rule of the table.
pub struct Law;

impl TableRule<Store, View, Plan> for Law {
    ghost use Rattle.hs_locked.specs.Rule.{LockedRule, first_view};

    ghost holds = { LockedRule };

    ghost first = { first_view };
}

pub type Board = Table<Store, View, Plan, Law, Global>;

pub type Words = Shared<Store, View, Plan, Law>;

pub type Place = Seat<Store, View>;
