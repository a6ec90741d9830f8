// What a job holds, and ending a job.
ghost use Rattle.std.specs.Prelude.{◌≡◌, ℕ, ◌<◌, ◌≤◌, List, length, MatchResult};
ghost use Rattle.history.specs.Machine.{Aborts, removed, holdings, put_all, has_ended};
ghost use Rattle.scheduler.specs.Cores.{machine, Ends, held_by};
ghost use Rattle.scheduler.specs.Reading.{RunsAt, Stopped, Counted, held_below};
ghost use Rattle.scheduler.specs.Slots.{slot_of};

use super::hub_core::{Core, MOST_SERVED};
use super::slots::SlotStatus;
use super::sweeps::{clear_edges, clear_items, release_items};
use history::refusal::Refusal;

impl Core {
    // The slot of a job that runs. By cases: each status has its own answer.
    // Beside a refusal a slot is a u32: a usize there makes the answer wider, and a granted read slower. Inlined for
    // the same reason: a call hands the answer over in memory.
    #[inline(always)]
    pub(crate) fn running(&self, job: u32) -> Result<u32, Refusal>
        ensures { MatchResult result (RunsAt self.now.tables job) (Stopped self.now.tables job) }
    {
        let slot = self.tables.jobs.find(job).ok_or(Refusal::NotPresent)?;
        match self.tables.jobs.slots[slot].status {
            SlotStatus::Free => Err(Refusal::NotPresent),
            SlotStatus::Running => Ok(slot as u32),
            SlotStatus::Committed => Err(Refusal::AlreadyCommitted),
        }
    }

    // Takes the job, whose slot this is, out of all tables.
    pub(crate) fn remove(&mut self, job: u32, slot: usize)
        requires is { slot ≡ slot_of job self.old.tables.jobs.slots }
        requires low { slot < 32 }
        ensures { (values : List ℕ) (room : ℕ) → machine self.new values room ≡ removed job (machine self.old values room) }
    {
        self.tables.jobs.slots[slot].vacate();
        clear_edges(&mut self.tables.jobs.edges, slot);
        clear_items(&mut self.tables.items, job, slot);
    }

    // Aborts a job.
    // `end` differs in the call in the middle: to share the rest would take a closure, and be no plainer.
    pub fn abort(&mut self, job: u32) -> Result<(), Refusal>
        ensures { (values : List ℕ) (room : ℕ) → Aborts (machine self.old values room) job result (machine self.new values room) }
    {
        let slot = self.running(job)? as usize;
        self.remove(job, slot);
        Ok(())
    }

    // How many items a running job holds, of a store that has so many.
    pub fn count_held(&self, items: usize, job: u32) -> Result<usize, Refusal>
        ensures { (values : List ℕ) (room : ℕ) → items ≡ length values → Counted self.now.tables job values room result }
    {
        self.running(job)?;
        Ok(self.count_below(job, items.min(MOST_SERVED)))
    }

    // How many of the first items the job holds.
    fn count_below(&self, job: u32, items: usize) -> usize
        requires { items ≤ 64 }
        ensures { result ≡ length (held_below self.now.tables job items) }
    {
        self.tables.items[..items]
            .iter()
            .filter(|item| item.is_held_by(job))
            .count()
    }

    // The value that the job holds at the item, if it holds one there.
    pub fn held_by(&self, job: u32, item: usize) -> Option<u32>
        ensures { result ≡ held_by self.now job item }
    {
        self.tables
            .items
            .get(item)
            .and_then(|item| item.held)
            .filter(|holding| holding.job == job)
            .map(|holding| holding.value)
    }

    // Notes that the job, which runs in this slot, has committed.
    fn note_commit(&mut self, job: u32, slot: usize)
        requires { RunsAt self.old.tables job slot }
        ensures { (values : List ℕ) (room left : ℕ) → machine self.new (put_all (machine self.old values room).held (holdings (machine self.old values room) job) values) left ≡ has_ended job left (machine self.old values room) }
    {
        self.tables.jobs.slots[slot].close();
        release_items(&mut self.tables.items, job);
    }

    // Notes that a running job has committed: what it held is in the store now.
    pub fn end(&mut self, job: u32) -> Result<(), Refusal>
        ensures { Ends self.old job result self.new }
    {
        let slot = self.running(job)? as usize;
        self.note_commit(job, slot);
        Ok(())
    }
}
