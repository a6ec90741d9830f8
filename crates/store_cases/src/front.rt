ghost use Rattle.std.specs.Prelude.{◌≡◌, ◌+◌, ◌<◌, ◌≤◌, min, ◌++◌, length, take, drop, Some, None};
ghost use Rattle.store.specs.Stores.{at};

use store::Store;

// Puts a value to an item and answers what the item then holds: the value, unless the put was refused.
pub fn put_then_get<S: Store>(store: &mut S, item: u32, value: u32) -> Option<u32>
    ensures granted { item < length (S.Store.values store.old) → 0 < S.Store.room store.old → result ≡ Some value }
    ensures full { S.Store.room store.old ≡ 0 → result ≡ at (S.Store.values store.old) item }
    ensures outside { length (S.Store.values store.old) ≤ item → result ≡ None }
{
    let _ = store.put(item, value);
    store.get(item)
}

// Puts values to the items from item 0 on, in their order, up to 64 of them and up to the first put that
// is refused. Answers how many were put.
pub fn put_front<S: Store>(store: &mut S, values: &[u32]) -> usize
    ensures front { S.Store.values store.new ≡ take result values.now ++ drop result (S.Store.values store.old) }
    ensures most { (result ≤ min 64 (length values.now)) × (result ≤ length (S.Store.values store.old)) }
    ensures least { min (min 64 (length values.now)) (min (length (S.Store.values store.old)) (S.Store.room store.old)) ≤ result }
    ensures room { S.Store.room store.old ≤ S.Store.room store.new + result }
{
    let front = &values[..values.len().min(64)];
    for (item, value) in front.iter().enumerate() {
        if store.put(item as u32, *value).is_err() {
            return item;
        }
    }
    front.len()
}
