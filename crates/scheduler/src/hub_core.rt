// The scheduler: the tables with their invariant.
ghost use Rattle.scheduler.specs.Reading.{Sound, Sound-prop};

use super::tables::Tables;

// How many items of a store are served at most: the first ones.
pub const MOST_SERVED: usize = 64;

// Everything of a hub but its store: which jobs are present, who holds, reads and writes each item, the
// edges between the jobs and the next number. The contract of each call holds over every store, whatever
// its values and its room are.
#[derive(Drop)]
pub struct Core {
    pub(crate) tables: Tables,
    ghost sound: { Sound tables } by { Sound-prop tables },
}
