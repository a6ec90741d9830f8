// What a list of acts means: conflicts, serial orders, the serial run; and the hub as an abstract
// machine, with what is promised of every run of it. Mostly definitions (specs/) and proofs; the code
// is the small types that the machine and the hub's code both name.
//
// answer   what a granted call tells
// refusal  why a hub says no
// holding  who holds an item
// promises what is proved of the machine
#![tactic(auto)]

pub mod answer;
pub mod holding;
pub mod promises;
pub mod refusal;
