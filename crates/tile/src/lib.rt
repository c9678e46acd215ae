// Boxes of dots, row by row.
#![tactic(auto)]

pub mod boxes;
