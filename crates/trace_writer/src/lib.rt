// The writer of traces.
//
// writer   acts, written
#![tactic(auto)]

pub mod writer;
