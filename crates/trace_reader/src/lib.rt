// The reader of traces.
//
// number   a number, read from its digits
// line     one line, read
// reader   whole traces, read
#![tactic(auto)]

mod line;
mod number;
pub mod reader;
