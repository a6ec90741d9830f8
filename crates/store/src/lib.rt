// Stores: numbered items, each with a value of 32 bits, behind one trait that says what they mean.
//
// store      the trait, and why a put is refused
// memory     a store whose values stand in lent memory
// log        a store that appends a record to lent bytes for each put
// log_bytes  the records of a log, over plain bytes
#![tactic(auto)]

pub mod log;
mod log_bytes;
pub mod memory;
pub mod store;

pub use log::LogStore;
pub use memory::MemoryStore;
pub use store::{PutRefused, Store};
