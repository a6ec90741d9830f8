// Code that is written once for every store, and what logs and memories do on examples.
//
// front    puts a list of values from item 0 on
#![tactic(auto)]

pub mod front;
#[cfg(test)]
mod tests;
