// One item, as the steps and the end of a job see it and change it.
ghost use Rattle.std.specs.Prelude.{◌≡◌, None, MatchResult};
ghost use Rattle.history.specs.Machine.{holds, held_value, held_by_another};
ghost use Rattle.scheduler.specs.Accesses.{ItemNoted, writes};
ghost use Rattle.scheduler.specs.Marks.{Sources, ItemWithout, ItemLetGo};

use super::tables::ItemState;
use graph::nodes::{union, with, without};
use history::holding::Holding;
use history::refusal::Refusal;

// What a step does with its item: it reads it, or writes this value to it. The judge has an enum of this name without
// a value, of which it has no use.
#[derive(Clone, Copy)]
pub enum Access {
    Read,
    Write(u32),
}

impl ItemState {
    // Whether the job holds the item.
    pub(crate) fn is_held_by(&self, job: u32) -> bool
        ensures { result ≡ holds job self.now.held }
    {
        self.held.is_some_and(|holding| holding.job == job)
    }

    // Whether the job may step on the item as far as its holder goes: refused if another job holds it.
    // By a match with a guard: `filter` with a `map_or` of two results reads no plainer.
    pub(crate) fn admit(&self, job: u32) -> Result<(), Refusal>
        ensures { MatchResult result (λ _. held_by_another job self.now.held ≡ None) (λ r. held_by_another job self.now.held ≡ Some r) }
    {
        match self.held {
            Some(holding) if holding.job != job => Err(Refusal::ItemHeld {
                holder: holding.job,
            }),
            _ => Ok(()),
        }
    }

    // The value of the item as its holder sees it, and as everybody sees it if nobody holds it.
    pub(crate) fn seen(&self, stored: u32) -> u32
        ensures { result ≡ held_value self.now.held stored }
    {
        self.held.map_or(stored, |holding| holding.value)
    }

    // The slots from which a step by the job of this slot draws edges: those of the other writers, and
    // for a write those of the other readers too.
    pub(crate) fn sources(&self, access: Access, slot: usize) -> u64
        ensures { Sources self.now (writes access) slot result }
    {
        match access {
            Access::Read => without(self.writers, slot),
            Access::Write(_) => without(union(self.writers, self.readers), slot),
        }
    }

    // Notes a step by the job of this slot, which holds the item from a write on.
    pub(crate) fn note(&mut self, access: Access, job: u32, slot: usize)
        ensures { ItemNoted access job slot self.old self.new }
    {
        match access {
            Access::Read => self.readers = with(self.readers, slot),
            Access::Write(value) => {
                self.held = Some(Holding { job, value });
                self.writers = with(self.writers, slot);
            }
        }
    }

    // Ends the job's holding, if it holds the item.
    pub(crate) fn release(&mut self, job: u32)
        ensures { ItemLetGo job self.old self.new }
    {
        self.held = self.held.filter(|holding| holding.job != job);
    }

    // Takes the job, whose slot this is, out of the item.
    pub(crate) fn clear(&mut self, job: u32, slot: usize)
        ensures { ItemWithout job slot self.old self.new }
    {
        self.release(job);
        self.readers = without(self.readers, slot);
        self.writers = without(self.writers, slot);
    }
}
