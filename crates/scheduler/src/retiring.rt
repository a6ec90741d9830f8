// Retiring committed jobs.
ghost use Rattle.std.specs.Prelude.{ℕ, List};
ghost use Rattle.history.specs.Machine.{Retires};
ghost use Rattle.scheduler.specs.Cores.{machine};
ghost use Rattle.scheduler.specs.Reading.{NextRetires};

use super::hub_core::Core;
use super::slots::SlotStatus;
use graph::nodes::union;
use graph::order::next_free;

impl Core {
    // The slot of the committed job with the smallest number of those that no edge leads into.
    fn next_to_retire(&self) -> Option<usize>
        ensures { NextRetires self.now.tables result }
    {
        let jobs = &self.tables.jobs;
        let committed = jobs.slots_with(SlotStatus::Committed);
        let running = jobs.slots_with(SlotStatus::Running);
        let keys = jobs.numbers();
        next_free(&jobs.edges, &keys, union(running, committed), committed)
    }

    // Takes out one job after another that may retire and writes their numbers into the list, until it is
    // full or no job is left that may. Answers how many.
    pub fn retire(&mut self, list: &mut [u32]) -> usize
        ensures { (values : List ℕ) (room : ℕ) → Retires (machine self.old values room) list.old result (machine self.new values room) list.new }
    {
        for (count, place) in list.iter_mut().enumerate() {
            let Some(slot) = self.next_to_retire() else {
                return count;
            };
            let job = self.tables.jobs.slots[slot].job;
            self.remove(job, slot);
            *place = job;
        }
        list.len()
    }
}
