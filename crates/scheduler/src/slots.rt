// The slots of the job table, and how they are found.
ghost use Rattle.std.specs.Prelude.{◌≡◌, position};
ghost use Rattle.scheduler.specs.declared.slots.SlotStatus.TheVariants.{Free, Running, Committed};
ghost use Rattle.scheduler.specs.Slots.{is_free as free, belongs as taken_by, SlotsWith, numbers as jobs};

use super::tables::JobTable;
use graph::nodes::with;

// What a slot says of its job.
#[derive(Clone, Copy, PartialEq, Eq, Debug)]
pub enum SlotStatus {
    Free,
    Running,
    Committed,
}

// A place of the job table: free, or taken by one job. The number of a free slot means nothing.
// So it stays one struct, of which a call changes a field, and no enum with a number in two variants.
#[derive(Clone, Copy, PartialEq, Eq, Debug)]
pub struct Slot {
    pub job: u32,
    pub status: SlotStatus,
}

impl Slot {
    // Whether no job has the slot.
    pub(crate) fn is_free(&self) -> bool
        ensures { result ≡ free self.now }
    {
        self.status == SlotStatus::Free
    }

    // Whether the slot is taken by the job.
    pub(crate) fn belongs(&self, job: u32) -> bool
        ensures { result ≡ taken_by job self.now }
    {
        !self.is_free() && self.job == job
    }

    // Gives the slot to a job.
    pub(crate) fn settle(&mut self, job: u32)
        ensures { self.new ≡ record { job = job; status = Running } }
    {
        *self = Slot {
            job,
            status: SlotStatus::Running,
        };
    }

    // Takes the slot from its job.
    pub(crate) fn vacate(&mut self)
        ensures { self.new ≡ record { job = self.old.job; status = Free } }
    {
        self.status = SlotStatus::Free;
    }

    // Notes that the slot's job has committed.
    pub(crate) fn close(&mut self)
        ensures { self.new ≡ record { job = self.old.job; status = Committed } }
    {
        self.status = SlotStatus::Committed;
    }
}

impl JobTable {
    // The slot that belongs to the job, if one does.
    pub(crate) fn find(&self, job: u32) -> Option<usize>
        ensures { result ≡ position (taken_by job) self.now.slots }
    {
        self.slots.iter().position(|slot| slot.belongs(job))
    }

    // The first free slot, if one is free.
    pub(crate) fn find_free(&self) -> Option<usize>
        ensures { result ≡ position free self.now.slots }
    {
        self.slots.iter().position(|slot| slot.is_free())
    }

    // The set of the slots that say this.
    #[tactic(auto, using(graph::proofs::Words::bit_none))]
    pub(crate) fn slots_with(&self, status: SlotStatus) -> u64
        ensures { SlotsWith status self.now.slots result }
    {
        // A loop: the set grows slot by slot.
        let mut set = 0;
        for (k, slot) in self.slots.iter().enumerate() {
            if slot.status == status {
                set = with(set, k);
            }
        }
        set
    }

    // The numbers in the slots, free ones too.
    pub(crate) fn numbers(&self) -> [u32; 32]
        ensures { result ≡ jobs self.now.slots }
    {
        // By index: `map` takes an array apart one by one; with it a job's life, from open to retire, took two
        // fifths longer.
        let mut numbers = [0; 32];
        for (k, slot) in self.slots.iter().enumerate() {
            numbers[k] = slot.job;
        }
        numbers
    }
}
