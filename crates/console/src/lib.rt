// What the programs do with a file of commands: lend memory, have its pictures made, print them.
#![tactic(auto)]

pub mod memory;
pub mod painter;
pub mod print;
pub mod program;
