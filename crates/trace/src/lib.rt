// Traces: what jobs did on a hub, as text of one line an act. What the reader and the writer of traces
// share.
//
// act      the acts of a trace and the step that a line is read into
// kind     the seven kinds of act
// fault    why a trace is not read, or an act not written
#![tactic(auto)]

pub mod act;
pub mod fault;
pub mod kind;
