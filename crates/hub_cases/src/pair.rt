// A hub over lent memory and one over lent bytes, side by side.
ghost use Rattle.std.specs.Prelude.{◌-◌};
ghost use Rattle.history.specs.Machine.{made, Peeks};
ghost use Rattle.hub.specs.InMemory.{start};
ghost use Rattle.store.specs.Records.{contents, used_in, whole};

use history::refusal::Refusal;
use hub::Hub;
use store::{LogStore, MemoryStore};

// Makes a hub over the values and one over a log of so many items, and answers what they show of an item:
// to each it is the item of its own store.
pub fn peek_both(
    values: &mut [u32],
    bytes: &mut [u8],
    items: u8,
    item: u32,
) -> (Result<u32, Refusal>, Result<u32, Refusal>)
    ensures memory { Peeks (start 0 values.old) item result.0 (start 0 values.old) }
    ensures log { Peeks (made 32 0 (contents bytes.old items (used_in bytes.old)) (whole bytes.old - used_in bytes.old)) item result.1 (made 32 0 (contents bytes.old items (used_in bytes.old)) (whole bytes.old - used_in bytes.old)) }
{
    let over_memory = Hub::new(MemoryStore::new(values), 0);
    let over_log = Hub::new(LogStore::new(bytes, items), 0);
    (over_memory.peek(item), over_log.peek(item))
}
