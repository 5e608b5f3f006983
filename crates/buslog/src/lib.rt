// The judge of bus logs (document 01, "The log program"): the verdict on a line under a cluster table, and the rows of a report.
// Every call accepts every table, text and number.
#![tactic(auto)]

pub mod judge;
pub mod pairs;
pub mod report;
pub mod row;
