// The lines of a rehearsal: what is told of the hub's answers, and how it is written.
//
// line   an outcome, its columns and their text
#![tactic(auto)]

pub mod line;
