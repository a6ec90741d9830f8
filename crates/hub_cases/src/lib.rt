// Hubs over lent memory: what they answer on examples, and that one function may have two of them.
//
// pair     a hub over lent memory and one over lent bytes, side by side
#![tactic(auto)]

pub mod pair;
#[cfg(test)]
mod tests;
