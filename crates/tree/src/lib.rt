// The prefix tree: definitions and theorems about the search rule. It has no function.
#![tactic(auto)]

// How many bytes stand before the first query of a record: the number of reports.
pub const HEADING_LENGTH: usize = 8;
