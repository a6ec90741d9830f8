// The judge: could the jobs of a trace have run one after another?
//
// refusal  why a list of steps is not judged
// users    the jobs that use an item
// ledger   the jobs of the steps so far, and the edges between them
// reading  the steps, one after another
// judge    the verdict, with the order or the cycle that shows it
#![tactic(auto)]

pub mod judge;
mod ledger;
mod reading;
pub mod refusal;
mod users;
