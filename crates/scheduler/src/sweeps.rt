// Taking a job out of the edges and the items, place by place.
// Each function takes the rows or the items alone, so that the other tables stay out of its contract.
ghost use Rattle.std.specs.Prelude.{◌≡◌, ℕ};
ghost use Rattle.scheduler.specs.Marks.{RowWithout, EdgesWithout, ItemsWithout, ItemsLetGo};

use super::tables::ItemState;
use graph::nodes::without;

// Row `to` without the slot.
fn clear_row(row: u64, to: usize, slot: usize) -> u64
    ensures { RowWithout slot to row result }
{
    if to == slot { 0 } else { without(row, slot) }
}

// Removes all edges from the slot and to it.
pub(crate) fn clear_edges(rows: &mut [u64; 32], slot: usize)
    ensures { EdgesWithout slot rows.old rows.new }
{
    for (to, row) in rows.iter_mut().enumerate() {
        *row = clear_row(*row, to, slot);
    }
}

// Takes the job, whose slot this is, out of every item: it holds none, and has read and written none.
pub(crate) fn clear_items(items: &mut [ItemState; 64], job: u32, slot: usize)
    ensures { ItemsWithout job slot items.old items.new }
{
    for item in items.iter_mut() {
        item.clear(job, slot);
    }
}

// Ends the job's holdings.
pub(crate) fn release_items(items: &mut [ItemState; 64], job: u32)
    ensures { ItemsLetGo job items.old items.new }
{
    for item in items.iter_mut() {
        item.release(job);
    }
}
