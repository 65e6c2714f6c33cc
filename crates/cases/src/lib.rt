// Worked cases: what the crates below do on examples. The tests are proved and then run.
#![tactic(auto)]

mod entry_tables;
#[cfg(test)]
mod tests;
