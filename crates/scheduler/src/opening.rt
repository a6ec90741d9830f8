// A scheduler, and opening a job.
ghost use Rattle.std.specs.Prelude.{◌≡◌, ℕ, List};
ghost use Rattle.history.specs.Machine.{made, Opens};
ghost use Rattle.scheduler.specs.Cores.{machine};
ghost use Rattle.scheduler.specs.Reading.{TakesSlot};

use super::hub_core::Core;
use super::tables::{FREE, IDLE, JobTable, Tables};
use history::refusal::Refusal;

impl Core {
    // A scheduler with no job present, which gives this number to the first one.
    #[tactic(auto, using(crate::proofs::Makes::fresh_state))]
    pub fn new(first: u32) -> Core
        ensures { (values : List ℕ) (room : ℕ) → machine result values room ≡ made 32 first values room }
    {
        Core {
            tables: Tables {
                jobs: JobTable {
                    slots: [FREE; 32],
                    edges: [0; 32],
                },
                items: [IDLE; 64],
                next: first as u64,
            },
        }
    }

    // Opens a job in the first free slot and answers its number.
    pub fn open(&mut self) -> Result<u32, Refusal>
        ensures opens { (values : List ℕ) (room : ℕ) → Opens (machine self.old values room) result (machine self.new values room) }
        ensures slot { TakesSlot self.old.tables result self.new.tables }
    {
        let free = self.tables.jobs.find_free().ok_or(Refusal::TableFull)?;
        let job = u32::try_from(self.tables.next).map_err(|_| Refusal::NumbersSpent)?;
        self.tables.jobs.slots[free].settle(job);
        self.tables.next += 1;
        Ok(job)
    }
}
