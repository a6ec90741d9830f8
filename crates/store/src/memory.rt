ghost use Rattle.std.specs.Prelude.{◌≡◌};
ghost use Rattle.store.specs.Memories.{memory_values, memory_room, memory_becomes};
ghost use Rattle.store.specs.Stores.{Puts, Turns};

use super::store::{PutRefused, Store};

// A store whose values stand in memory that the caller lends. Each call takes constant time, and no put
// takes from its room.
#[derive(Drop)]
pub struct MemoryStore<'a> {
    values: &'a mut [u32],
}

impl<'a> MemoryStore<'a> {
    // Makes a store of the values in the lent memory, and changes none of them. The memory stays the
    // caller's (`lender`): when the store is gone it holds what the store last held.
    pub fn new(values: &'a mut [u32]) -> MemoryStore<'a>
        ensures means { (memory_values result ≡ values.old) × (memory_room result ≡ 4294967295) }
        ensures lender { result.values.ghost_name ≡ values.entry.ghost_name }
    {
        MemoryStore { values }
    }

    // Gives the lent memory back.
    pub fn into_values(self) -> &'a mut [u32]
        ensures means { result.now ≡ memory_values self.entry }
        ensures lender { result.ghost_name ≡ self.entry.values.ghost_name }
    {
        let MemoryStore { values } = self;
        values
    }
}

impl<'a> Store for MemoryStore<'a> {
    ghost values = { memory_values };

    ghost room = { memory_room };

    ghost becomes = { memory_becomes };

    fn items(&self) -> usize {
        self.values.len()
    }

    fn get(&self, item: u32) -> Option<u32> {
        self.values.get(item as usize).copied()
    }

    fn room(&self) -> u64 {
        u64::from(u32::MAX)
    }

    fn put(&mut self, item: u32, value: u32) -> Result<(), PutRefused>
        ensures means { Puts (memory_values self.old) (memory_room self.old) item value result (memory_values self.new) (memory_room self.new) }
        ensures turns { Turns memory_becomes self.old item value result self.new }
        ensures lender { self.new.values.ghost_name ≡ self.old.values.ghost_name }
    {
        // By a test and an index: of a lent field the check does not know what `get_mut` leaves.
        let place = item as usize;
        if place < self.values.len() {
            self.values[place] = value;
            Ok(())
        } else {
            Err(PutRefused::Outside)
        }
    }
}
