// The text of a script: the fields of a line, the form that a line has, the lists that end it, and the texts of answers. Every call
// takes every text, place and number.
#![tactic(auto)]

mod fields;
pub mod forms;
pub mod lists;
pub mod print;
pub mod rows;
