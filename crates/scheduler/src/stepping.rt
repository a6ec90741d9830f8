// Reading and writing an item.
ghost use Rattle.std.specs.Prelude.{◌≡◌, ℕ, ◌<◌, min, List, length, MatchResult, OnOk, slice_index};
ghost use Rattle.history.specs.Machine.{Reads, Writes};
ghost use Rattle.scheduler.specs.Accesses.{asked, Leads};
ghost use Rattle.scheduler.specs.Cores.{machine};
ghost use Rattle.scheduler.specs.Marks.{Draws, TellsCycle};
ghost use Rattle.scheduler.specs.Reading.{Admitted, Barred};

use super::hub_core::{Core, MOST_SERVED};
use super::items::Access;
use graph::nodes::union;
use graph::path::find_path;
use history::refusal::Refusal;

// Draws edges from these slots to this one.
// It takes the rows alone, so that the other tables stay out of its contract; `closes_cycle` does so too.
fn draw(rows: &mut [u64; 32], slot: usize, from: u64)
    requires { slot < 32 }
    ensures { Draws rows.old slot from rows.new }
{
    rows[slot] = union(rows[slot], from);
}

// Whether edges from these slots to this one would close a cycle.
fn closes_cycle(rows: &[u64; 32], slot: usize, from: u64) -> bool
    requires { slot < 32 }
    ensures { TellsCycle rows.now slot from result }
{
    let mut drawn = *rows;
    draw(&mut drawn, slot, from);
    find_path(&drawn, slot, slot).is_some()
}

impl Core {
    // The slot of a job that may step on the item of so many, as far as the edges allow it.
    // Beside a refusal a slot is a u32: a usize there makes the answer wider, and a granted read slower.
    fn admit(&self, items: usize, job: u32, item: u32) -> Result<u32, Refusal>
        ensures { MatchResult result (Admitted self.now.tables (min 64 items) job item) (Barred self.now.tables (min 64 items) job item) }
    {
        let slot = self.running(job)?;
        if item as usize >= items.min(MOST_SERVED) {
            return Err(Refusal::ItemNotServed);
        }
        self.tables.items[item as usize].admit(job)?;
        Ok(slot)
    }

    // Lets the job step on an item of a store that has so many, and notes the step. Where the step would
    // close a cycle the job is aborted. Inlined: a read and a write each know which step they make.
    #[inline(always)]
    fn step(&mut self, items: usize, job: u32, item: u32, access: Access) -> Result<(), Refusal>
        ensures inside { OnOk result (item < min 64 items) }
        ensures leads { (values : List ℕ) (room : ℕ) → items ≡ length values → Leads (machine self.old values room) (asked job item access) result (machine self.new values room) }
    {
        let slot = self.admit(items, job, item)? as usize;
        let at = item as usize;
        // Copied first: through a borrow the check asks for the invariant of `Core` once more.
        let state = self.tables.items[at];
        let from = state.sources(access, slot);
        if closes_cycle(&self.tables.jobs.edges, slot, from) {
            self.remove(job, slot);
            return Err(Refusal::ClosesCycle);
        }
        draw(&mut self.tables.jobs.edges, slot, from);
        self.tables.items[at].note(access, job, slot);
        Ok(())
    }

    // Reads an item of a store that has so many items and this value in it.
    pub fn read(&mut self, items: usize, job: u32, item: u32, stored: u32) -> Result<u32, Refusal>
        ensures { (values : List ℕ) (room : ℕ) → items ≡ length values → (item < items → stored ≡ slice_index values item) → Reads (machine self.old values room) job item result (machine self.new values room) }
    {
        self.step(items, job, item, Access::Read)?;
        // Copied first, as in `step`.
        let state = self.tables.items[item as usize];
        Ok(state.seen(stored))
    }

    // Writes an item of a store that has so many items: the job holds it from now on.
    pub fn write(&mut self, items: usize, job: u32, item: u32, value: u32) -> Result<(), Refusal>
        ensures { (values : List ℕ) (room : ℕ) → items ≡ length values → Writes (machine self.old values room) job item value result (machine self.new values room) }
    {
        self.step(items, job, item, Access::Write(value))
    }
}
