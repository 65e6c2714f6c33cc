// The rules of the calls but for deliveries, as far as the tables go: what is refused, and what a duty asks for.
#![tactic(auto)]

pub mod checks;
pub mod duties;
