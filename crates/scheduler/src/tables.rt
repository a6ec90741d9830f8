// The tables of the hub: plain values, with no invariant of their own.

use super::slots::{Slot, SlotStatus};
use history::holding::Holding;

// One item as the jobs see it: who holds it, and the slots of its present readers and writers.
#[derive(Clone, Copy)]
pub struct ItemState {
    pub held: Option<Holding>,
    pub readers: u64,
    pub writers: u64,
}

// The slots of the jobs, and for each slot the set of slots from which an edge leads into it.
// Two arrays: a slot is lent and changed by itself, and the rows are handed whole to the search.
#[derive(Clone, Copy)]
pub struct JobTable {
    pub slots: [Slot; 32],
    pub edges: [u64; 32],
}

// Everything that the hub keeps beside its store.
#[derive(Clone, Copy)]
pub struct Tables {
    pub jobs: JobTable,
    pub items: [ItemState; 64],
    pub next: u64,
}

// A slot that no job has taken.
pub(crate) const FREE: Slot = Slot {
    job: 0,
    status: SlotStatus::Free,
};

// An item that no job has touched.
pub(crate) const IDLE: ItemState = ItemState {
    held: None,
    readers: 0,
    writers: 0,
};
