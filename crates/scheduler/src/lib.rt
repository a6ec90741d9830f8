// The hub's machine as code, without the store: which jobs are present, who holds, reads and writes
// each item, and the edges between jobs. The code works by slot; its contracts speak of job numbers.
//
// hub_core the scheduler: the tables with their invariant
// slots    the slots of the job table
// tables   the job table, the item states and the next number
// items    one item
// opening  a scheduler, and opening a job
// stepping reading and writing an item
// ending   what a job holds, committing and aborting a job
// retiring retiring committed jobs
// sweeps   taking a job out of edges and items
#![tactic(auto)]

mod ending;
pub mod hub_core;
mod items;
mod opening;
mod retiring;
mod slots;
mod stepping;
mod sweeps;
mod tables;
