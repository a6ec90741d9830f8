#![tactic(auto)]

// Traces to read and acts to write, with what has to come of each.
#[cfg(test)]
mod tests;
