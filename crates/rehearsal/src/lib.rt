// A rehearsal: the steps of a trace played on a hub, answer by answer.
//
// turn   one step, played on a hub
// play   all steps, played on a hub that is made for them
#![tactic(auto)]

pub mod play;
mod turn;
