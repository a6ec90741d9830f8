ghost use Rattle.std.specs.Prelude.{◌≡◌, ℕ, List, length};
ghost use Rattle.store.specs.Stores.{Puts, Turns, at};

// Why a put was refused: the item is not one of the store's, or the store has no room.
#[derive(Clone, Copy, PartialEq, Eq, Debug)]
pub enum PutRefused {
    Outside,
    NoRoom,
}

// A store holds one value for each of its items, which are numbered from 0, and has a room: at least
// so many further puts to its items are granted.
pub trait Store {
    ghost values: { Self → List ℕ };

    ghost room: { Self → ℕ };

    // The one store becomes the other by putting this value to this item.
    ghost becomes: { Self → ℕ → ℕ → Self → Type 0 };

    // Answers how many items there are.
    fn items(&self) -> usize
        ensures { result ≡ length (values self.now) };

    // Answers the value of an item, or nothing for an item that the store does not have.
    fn get(&self, item: u32) -> Option<u32>
        ensures { result ≡ at (values self.now) item };

    // Answers the room.
    fn room(&self) -> u64
        ensures { result ≡ room self.now };

    // Replaces the value of an item, which takes at most one of the room. Refused, and nothing
    // changed, for an item that the store does not have and where there is no room.
    fn put(&mut self, item: u32, value: u32) -> Result<(), PutRefused>
        ensures means { Puts (values self.old) (room self.old) item value result (values self.new) (room self.new) }
        ensures turns { Turns becomes self.old item value result self.new };
}
