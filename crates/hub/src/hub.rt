// The hub and its calls.
ghost use Rattle.std.specs.Prelude.{◌≡◌, ℕ, List, Ok};
ghost use Rattle.history.specs.Machine.{made, Opens, Reads, Writes, Commits, Aborts, Retires, Peeks};
ghost use Rattle.history.specs.Acting.{Takes};
ghost use Rattle.history.specs.Promises.{EveryRunFrom};
ghost use Rattle.scheduler.specs.Cores.{machine};
ghost use Rattle.hub.specs.Asking.{MayCommit, Committed};
ghost use Rattle.hub.specs.Standing.{machine_of};
ghost use Rattle.hub.specs.Putting.{LeavesIfRefused, PutsIfGranted, PutsFor, PutInTurn, held_pairs};

use history::answer::Answer;
use history::refusal::Refusal;
use scheduler::hub_core::{Core, MOST_SERVED};
use store::Store;
use trace::act::Act;

// A scheduler with no jobs. Every run that begins with it is serializable, whatever the store is.
// By itself: so the main theorem is shown of a scheduler alone, with no store in it.
fn idle(first: u32) -> Core
    ensures made { (values : List ℕ) (room : ℕ) → machine result values room ≡ made 32 first values room }
    ensures serializable { (values : List ℕ) (room : ℕ) → EveryRunFrom (machine result values room) values }
{
    Core::new(first)
}

// A hub runs jobs over the items of a store: it serves the first 64 of them, or all if these are fewer.
// A job is a database transaction. Its writes are held back until it commits, and a step that would close
// a cycle of conflicts aborts it, so that every run of a hub is serializable.
#[derive(Drop)]
pub struct Hub<S: Store> {
    store: S,
    core: Core,
}

impl<S: Store> Hub<S> {
    // Makes a hub with no jobs over the store. The first job gets this number. It never refuses.
    //
    // `serializable` is the promise of the hub: after every list of calls, the committed jobs have a serial
    // order; each of them, run serially, answers every read as the hub did and ends with the store's
    // contents; the retired numbers begin one; and a step on an item held by no other job is refused for
    // conflict exactly when it would close a cycle in the conflict graph of the whole run.
    pub fn new(store: S, first: u32) -> Hub<S>
        ensures store { result.store ≡ store }
        ensures made { machine_of S.Store result ≡ made 32 first (S.Store.values store) (S.Store.room store) }
        ensures serializable { EveryRunFrom (machine_of S.Store result) (S.Store.values store) }
    {
        Hub {
            store,
            core: idle(first),
        }
    }

    // Opens a job and answers its number. Refused if every slot is taken, or if the last number was given out.
    pub fn open(&mut self) -> Result<u32, Refusal>
        ensures opens { Opens (machine_of S.Store self.old) result (machine_of S.Store self.new) }
        ensures store { self.new.store ≡ self.old.store }
    {
        self.core.open()
    }

    // The value of an item as the job sees it: its own last write, or what the store holds. Refused unless
    // the job runs, the item is served and no other job holds it; where the read would close a cycle the job
    // is aborted.
    pub fn read(&mut self, job: u32, item: u32) -> Result<u32, Refusal>
        ensures reads { Reads (machine_of S.Store self.old) job item result (machine_of S.Store self.new) }
        ensures store { self.new.store ≡ self.old.store }
    {
        let items = self.store.items();
        // A read of an item that the store does not have is refused, whatever stands for its value.
        let stored = self.store.get(item).unwrap_or(0);
        self.core.read(items, job, item, stored)
    }

    // Writes a value to an item, which the job holds from now on: nobody else sees the value before the job
    // commits. Refused as a read is.
    pub fn write(&mut self, job: u32, item: u32, value: u32) -> Result<(), Refusal>
        ensures writes { Writes (machine_of S.Store self.old) job item value result (machine_of S.Store self.new) }
        ensures store { self.new.store ≡ self.old.store }
    {
        let items = self.store.items();
        self.core.write(items, job, item, value)
    }

    // Commits a job: what it holds goes into the store, smaller items first. Refused unless the job runs and
    // the store has room for every item that it holds; the job then runs on. A refusal leaves the store as
    // it was, down to the memory that it is made of; a grant puts these values and does nothing else to it.
    pub fn commit(&mut self, job: u32) -> Result<(), Refusal>
        ensures commits { Commits (machine_of S.Store self.old) job result (machine_of S.Store self.new) }
        ensures refused { LeavesIfRefused result self.old.store self.new.store }
        ensures granted { PutsIfGranted S.Store.becomes (machine_of S.Store self.old) job result self.old.store self.new.store }
    {
        self.may_commit(job)?;
        self.finish(job);
        Ok(())
    }

    // Whether a commit of the job may be made, or why it is refused.
    fn may_commit(&self, job: u32) -> Result<(), Refusal>
        ensures { MayCommit (machine_of S.Store self.now) job result }
    {
        let held = self.core.count_held(self.store.items(), job)?;
        if held as u64 <= self.store.room() {
            Ok(())
        } else {
            Err(Refusal::NoRoom)
        }
    }

    // Puts what the job holds into the store, smaller items first, and ends the job, whose commit is not
    // refused.
    fn finish(&mut self, job: u32)
        requires { MayCommit (machine_of S.Store self.old) job (Ok tt) }
        ensures commits { Committed (machine_of S.Store self.old) job (machine_of S.Store self.new) }
        ensures puts { PutInTurn S.Store.becomes self.old.store (held_pairs (machine_of S.Store self.old) job) self.new.store }
    {
        let served = self.store.items().min(MOST_SERVED);
        // By number: the item itself is put; nothing is indexed.
        for item in 0..served {
            if let Some(value) = self.core.held_by(job, item) {
                let _ = self.store.put(item as u32, value);
            }
        }
        let _ = self.core.end(job);
    }

    // Aborts a job: everything that it did is gone. Refused unless the job runs.
    pub fn abort(&mut self, job: u32) -> Result<(), Refusal>
        ensures aborts { Aborts (machine_of S.Store self.old) job result (machine_of S.Store self.new) }
        ensures store { self.new.store ≡ self.old.store }
    {
        self.core.abort(job)
    }

    // Retires committed jobs that no edge leads into, the smallest number first, until the list is full or
    // none is left. Writes their numbers to the front of the list and answers how many.
    pub fn retire(&mut self, list: &mut [u32]) -> usize
        ensures retires { Retires (machine_of S.Store self.old) list.old result (machine_of S.Store self.new) list.new }
        ensures store { self.new.store ≡ self.old.store }
    {
        self.core.retire(list)
    }

    // The store's value of an item, whoever holds it. Refused if the item is not served.
    pub fn peek(&self, item: u32) -> Result<u32, Refusal>
        ensures { Peeks (machine_of S.Store self.now) item result (machine_of S.Store self.now) }
    {
        if item as usize >= MOST_SERVED {
            return Err(Refusal::ItemNotServed);
        }
        self.store.get(item).ok_or(Refusal::ItemNotServed)
    }

    // Makes the call of an act and answers what it tells. The hub gives the number of an opened job and the
    // value that is read, whatever the act says of them. A retire is lent the list, which every other call
    // leaves alone.
    pub fn take(&mut self, act: Act, list: &mut [u32]) -> Result<Answer, Refusal>
        ensures takes { Takes (machine_of S.Store self.old) act list.old result (machine_of S.Store self.new) list.new }
        ensures store { PutsFor S.Store.becomes (machine_of S.Store self.old) act result self.old.store self.new.store }
    {
        match act {
            Act::Open { .. } => self.open().map(Answer::Number),
            Act::Read { job, item, .. } => self.read(job, item).map(Answer::Number),
            Act::Write { job, item, value } => self.write(job, item, value).map(|_| Answer::Done),
            Act::Commit { job } => self.commit(job).map(|_| Answer::Done),
            Act::Abort { job } => self.abort(job).map(|_| Answer::Done),
            Act::Peek { item, .. } => self.peek(item).map(Answer::Number),
            Act::Retire => Ok(Answer::Count(self.retire(list))),
        }
    }

    // Gives the store back, with what was committed in it.
    pub fn into_store(self) -> S
        ensures { result ≡ self.store }
    {
        let Hub { store, core: _ } = self;
        store
    }
}
