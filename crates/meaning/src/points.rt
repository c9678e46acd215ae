// Corners of triangles in space, and the points that they become on the picture.
use crate::geometry::Place;

// A corner in space: its place, its place in the texture, and a colour of four parts.
#[derive(Clone, Copy)]
pub struct Corner {
    pub x: i32,
    pub y: i32,
    pub z: i32,
    pub u: u16,
    pub v: u16,
    pub colour: [u8; 4],
}

// A corner on the picture.
#[derive(Clone, Copy)]
pub struct Point {
    pub at: Place,
    pub depth: u16,
    pub u: u16,
    pub v: u16,
    pub colour: [u8; 4],
}
