// The file: a list of drawing commands as bytes.
#![tactic(auto)]

ghost use Rattle.codec.specs.Judged.{ReadBack, WrittenSo, OneList};

pub mod bytes;
pub mod codes;
pub mod commands;
pub mod corners;
pub mod counts;
pub mod judge;
pub mod numbers;
pub mod owner;
pub mod part;
pub mod pens;
mod push;
pub mod reader;
pub mod refusal;
pub mod summary;
pub mod taken;
pub mod textures;
pub mod views;
pub mod walk;
mod writable;
pub mod writer;

// Every list in bounds has a file, which is taken as just this list; what is taken is the file of what it gives; a file is one list at most.
pub fn one_file_each()
    ensures back { ReadBack }
    ensures so { WrittenSo }
    ensures once { OneList }
{}
