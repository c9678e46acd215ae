// Places on the picture, and on which side of an edge they lie.
ghost use Rattle.std.specs.Prelude.{◌≡◌, ◌+◌, ◌*◌, ◌^◌, ◌≤◌, pos};
ghost use Rattle.std.specs.Int.Signed.{mag};
ghost use Rattle.meaning.specs.Meaning.{middle, edge, owns, inside};

use fixed_point::{difference, product};

// A place on the picture, in parts of 256 of a dot; y goes down.
#[derive(Clone, Copy)]
pub struct Place {
    pub x: i32,
    pub y: i32,
}

// The middle of dot i of a row or a column.
fn middle_along(i: u16) -> i32
    ensures { result ≡ pos (256 * i + 128) }
{
    256 * i32::from(i) + 128
}

// The middle of dot (i, j).
// Kept: i and j stay two numbers here and in all that follows: each definition and each loop takes them one by one, so that a struct would be made and taken apart at every call.
pub fn middle_of(i: u16, j: u16) -> Place
    ensures { result ≡ middle i j }
{
    Place {
        x: middle_along(i),
        y: middle_along(j),
    }
}

// Kept: an edge is its two ends p and q, here and in all that stands on this; it is named for a call alone, of three corners in turn, and a struct of both would be taken apart at once.
// Twice the area of p, q and m, above 0 if they go round with the clock.
pub fn side(p: Place, q: Place, m: Place) -> i128
    ensures value { result ≡ edge p q m }
    ensures bound { mag result ≤ 2 ^ 66 }
{
    let right = product(difference(q.x, p.x), difference(m.y, p.y));
    let left = product(difference(q.y, p.y), difference(m.x, p.x));
    right - left
}

// Whether the places on the edge from p to q belong to it: it goes up, or is level and goes to the right.
pub fn is_owner(p: Place, q: Place) -> bool
    ensures { result ≡ owns p q }
{
    q.y < p.y || (q.y == p.y && p.x < q.x)
}

pub fn is_inside(p: Place, q: Place, m: Place) -> bool
    ensures { result ≡ inside p q m }
{
    let side = side(p, q, m);
    side > 0 || (side == 0 && is_owner(p, q))
}
