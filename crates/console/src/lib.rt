// What the programs share: a trace from standard input, and lines to standard output.
//
// input  the bytes of an input, and the steps of the trace in them
// sheet  a header and lines, as one text
#![tactic(auto)]

pub mod input;
pub mod sheet;
