ghost use Rattle.std.specs.Prelude.{◌≡◌, ◌-◌, ◌≤◌, MatchOption};
ghost use Rattle.store.specs.Stores.{Puts, Turns, at};
ghost use Rattle.store.specs.Records.{whole, contents, used_in, UsedFront, Latest};
ghost use Rattle.store.specs.Logs.{log_used, log_values, log_room, log_becomes, Appends};

use super::log_bytes;
use super::store::{PutRefused, Store};

// A store that appends a record of 8 bytes to lent bytes for each put. How many records are used is
// counted once, at the making, and kept: bytes behind them may look like records and are none.
#[derive(Drop)]
pub struct LogStore<'a> {
    bytes: &'a mut [u8],
    items: u8,
    used: usize,
}

impl<'a> LogStore<'a> {
    // Makes a store of so many items of the records in the lent bytes, and changes none of them. The used
    // records are those up to the first that has no mark; one of an item that the store does not have is
    // passed over. The bytes stay the caller's (`lender`): when the store is gone they hold what it
    // last held.
    pub fn new(bytes: &'a mut [u8], items: u8) -> LogStore<'a>
        ensures means { (log_values result ≡ contents bytes.old items (used_in bytes.old)) × (log_room result ≡ whole bytes.old - used_in bytes.old) }
        ensures used { UsedFront bytes.old (log_used result) }
        ensures bytes { result.bytes.now ≡ bytes.old }
        ensures lender { result.bytes.ghost_name ≡ bytes.entry.ghost_name }
    {
        let used = log_bytes::count_used(bytes);
        LogStore::with_used(bytes, items, used)
    }

    // The store of these records, of which so many are used. Apart from `new`, which is thin and has no proof
    // file: a wrong step there is refused because a clause fails, not because a name is gone.
    fn with_used(bytes: &'a mut [u8], items: u8, used: usize) -> LogStore<'a>
        requires { used ≡ used_in bytes.old }
        ensures means { (log_values result ≡ contents bytes.old items (used_in bytes.old)) × (log_room result ≡ whole bytes.old - used_in bytes.old) }
        ensures used { UsedFront bytes.old (log_used result) }
        ensures bytes { result.bytes.now ≡ bytes.old }
        ensures lender { result.bytes.ghost_name ≡ bytes.entry.ghost_name }
    {
        LogStore { bytes, items, used }
    }

    // Appends a record of the value for the item, unless there is no such item or no room. Apart from `put`,
    // as the function above is apart from `new`.
    fn append(&mut self, item: u32, value: u32) -> Result<(), PutRefused>
        ensures means { Puts (log_values self.old) (log_room self.old) item value result (log_values self.new) (log_room self.new) }
        ensures turns { Turns log_becomes self.old item value result self.new }
        ensures bytes { Appends self.old item value result self.new }
        ensures lender { self.new.bytes.ghost_name ≡ self.old.bytes.ghost_name }
    {
        let n = log_bytes::next_free(self.bytes.len(), self.items, self.used, item)?;
        log_bytes::write_record(self.bytes, n, item as u8, value);
        self.used = n + 1;
        Ok(())
    }

    // Gives the lent bytes back.
    pub fn into_bytes(self) -> &'a mut [u8]
        ensures bytes { result.now ≡ self.entry.bytes.now }
        ensures lender { result.ghost_name ≡ self.entry.bytes.ghost_name }
    {
        let LogStore {
            bytes,
            items: _,
            used: _,
        } = self;
        bytes
    }
}

impl<'a> Store for LogStore<'a> {
    ghost values = { log_values };

    ghost room = { log_room };

    ghost becomes = { log_becomes };

    fn items(&self) -> usize {
        log_bytes::count_items(self.items)
    }

    // Walks back over the used records up to one of the item: all of them if there is none.
    fn get(&self, item: u32) -> Option<u32>
        ensures means { result ≡ at (log_values self.now) item }
        ensures latest { MatchOption result (self.now.items ≤ item) (Latest self.now.bytes.now item (log_used self.now)) }
    {
        log_bytes::read_item(self.bytes, self.items, self.used, item)
    }

    fn room(&self) -> u64 {
        log_bytes::count_free(self.bytes.len(), self.used) as u64
    }

    // Appends one record, in constant time.
    fn put(&mut self, item: u32, value: u32) -> Result<(), PutRefused>
        ensures means { Puts (log_values self.old) (log_room self.old) item value result (log_values self.new) (log_room self.new) }
        ensures turns { Turns log_becomes self.old item value result self.new }
        ensures bytes { Appends self.old item value result self.new }
        ensures lender { self.new.bytes.ghost_name ≡ self.old.bytes.ghost_name }
    {
        self.append(item, value)
    }
}
