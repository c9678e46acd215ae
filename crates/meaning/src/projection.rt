// From corners in space to points on the picture.
ghost use Rattle.std.specs.Prelude.{◌≡◌, ◌^◌, ◌<◌, ◌≤◌, false, pos, ◌*ℤ◌, MatchOption};
ghost use Rattle.std.specs.Int.Signed.{mag};
ghost use Rattle.meaning.specs.Meaning.{along, is_in_sight, in_bounds, projected, point_of};
ghost use Rattle.meaning.specs.Fragments.{triple};
ghost use Rattle.meaning.specs.Triangles.{triangle_seen};
ghost use Rattle.meaning.specs.Parts.{Sighted, Bounded};

use crate::geometry::Place;
use crate::points::{Corner, Point};
use crate::triangle::Triangle;
use fixed_point::{floor, product, quotient};

// One row of a view: three factors and an addend, in parts of 65,536.
#[derive(Clone, Copy)]
pub struct Row {
    pub x: i32,
    pub y: i32,
    pub z: i32,
    pub one: i32,
}

// How corners come onto the picture: a row each for across, down and away, then scale and middle.
#[derive(Clone, Copy)]
pub struct View {
    pub across: Row,
    pub down: Row,
    pub away: Row,
    pub scale: u32,
    pub middle: Place,
}

fn term(a: i32, b: i32) -> i128
    ensures value { result ≡ a *ℤ b }
    ensures bound { mag result ≤ 2 ^ 62 }
{
    product(i64::from(a), i64::from(b))
}

impl Row {
    // The row's value at a corner.
    pub fn at(self, corner: Corner) -> i64
        ensures { result ≡ along self corner }
    {
        let sum = term(self.x, corner.x)
            + term(self.y, corner.y)
            + term(self.z, corner.z)
            + term(self.one, 256);
        floor(sum) as i64
    }
}

// How far a corner is away, or nothing where that is too near or too far.
// Kept: two comparisons, here and in `bounded`. By `contains` the proof didn't close: what is known of the number before its cast was lost.
fn in_sight(away: i64) -> Option<u32>
    ensures { MatchOption result (is_in_sight away ≡ false) (λ w. Sighted away w) }
{
    if 256 <= away && away <= 16_777_215 {
        Some(away as u32)
    } else {
        None
    }
}

// A coordinate of a point, or nothing where it lies too far to the side.
fn bounded(at: i128) -> Option<i32>
    ensures { MatchOption result (in_bounds at ≡ false) (λ x. Bounded at x) }
{
    if -524_288 <= at && at < 524_288 {
        Some(at as i32)
    } else {
        None
    }
}

// middle + z · scale / away, or nothing where that lies too far to the side.
fn coordinate(middle: i32, z: i64, scale: u32, away: u32) -> Option<i32>
    requires { 0 < away }
    ensures { MatchOption result (in_bounds (projected middle z scale (pos away)) ≡ false) (λ x. Bounded (projected middle z scale (pos away)) x) }
{
    let moved = quotient(product(z, i64::from(scale)), away)?;
    bounded(i128::from(middle) + moved)
}

impl View {
    // The point of a corner on the picture, or nothing where the corner is hidden: too near, too far away or too far to the side.
    pub fn point(self, corner: Corner) -> Option<Point>
        ensures { result ≡ point_of self corner }
    {
        let away = in_sight(self.away.at(corner))?;
        let x = coordinate(self.middle.x, self.across.at(corner), self.scale, away)?;
        let y = coordinate(self.middle.y, self.down.at(corner), self.scale, away)?;
        let depth = (65_535 - 16_776_960 / away) as u16;
        let colour = corner.colour;
        Some(Point {
            at: Place { x, y },
            depth,
            u: corner.u,
            v: corner.v,
            colour,
        })
    }

    // A triangle on the picture, or nothing where a corner is hidden.
    pub fn triangle(self, corners: [Corner; 3]) -> Option<Triangle>
        ensures { result ≡ triangle_seen self (triple corners) }
    {
        let [a, b, c] = corners;
        Some(Triangle {
            a: self.point(a)?,
            b: self.point(b)?,
            c: self.point(c)?,
        })
    }
}
