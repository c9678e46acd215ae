// What a list of drawing commands means for one dot.
#![tactic(auto)]

pub mod brush;
pub mod code;
pub mod command;
pub mod examples;
pub mod fragment;
pub mod geometry;
pub mod kind;
pub mod laws;
pub mod paint;
pub mod pen;
pub mod points;
pub mod projection;
pub mod state;
pub mod texture;
pub mod triangle;
pub mod weights;
