// Lists of steps to judge, with the verdict or the refusal that has to come of each.
#![tactic(auto)]

#[cfg(test)]
mod tests;
