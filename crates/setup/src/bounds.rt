// The dots that a triangle can cover.
ghost use Rattle.std.specs.Prelude.{◌≡◌, ℕ, ◌+◌, ◌*◌, ◌<◌, ◌≤◌, ◌&&◌, pos, int_lt, nat_le, nat_lt};
ghost use Rattle.std.specs.Int.Signed.{mag};
ghost use Rattle.meaning.specs.Meaning.{in_frame, middle};
ghost use Rattle.setup.specs.Boxes.{between, boxed};
ghost use Rattle.setup.specs.Ready.{Placed};

use meaning::pen::Frame;
use meaning::triangle::Triangle;

// How many dots of a row or a column have their middles before x.
fn middles_before(x: i32) -> u16
    requires { mag x ≤ 524288 }
    ensures { (i : ℕ) → nat_lt i result ≡ int_lt (pos (256 * i + 128)) x }
{
    ((x + 127).max(0) / 256) as u16
}

// Of the dots from one to another those whose middles lie between the least and the greatest of three coordinates.
fn span(x: i32, y: i32, z: i32, from: u16, to: u16) -> (u16, u16)
    requires x { mag x < 524288 }
    requires y { mag y < 524288 }
    requires z { mag z < 524288 }
    ensures { (i : ℕ) → (nat_le result.0 i && nat_lt i result.1) ≡ ((nat_le from i && nat_lt i to) && between x y z (pos (256 * i + 128))) }
{
    let least = x.min(y).min(z);
    let greatest = x.max(y).max(z);
    (
        from.max(middles_before(least)),
        to.min(middles_before(greatest + 1)),
    )
}

// Of the dots of a frame those whose middles lie in a triangle's box.
pub(crate) fn bounds(triangle: Triangle, frame: Frame) -> Frame
    requires { Placed triangle }
    ensures { (i j : ℕ) → in_frame result i j ≡ (in_frame frame i j && boxed triangle.a.at triangle.b.at triangle.c.at (middle i j)) }
{
    let (a, b, c) = (triangle.a.at, triangle.b.at, triangle.c.at);
    let (left, right) = span(a.x, b.x, c.x, frame.left, frame.right);
    let (top, bottom) = span(a.y, b.y, c.y, frame.top, frame.bottom);
    Frame {
        left,
        top,
        right,
        bottom,
    }
}
