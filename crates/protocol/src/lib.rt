// Reference listing as mathematics: the steps of a field's calls, as definitions in specs/. The code here is
// what those speak of besides the tables: refusals, riggings, and the rows of a report.
#![tactic(auto)]

pub mod refusal;
pub mod report;
pub mod rigging;
