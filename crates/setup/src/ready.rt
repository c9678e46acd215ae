// Corners made ready as a triangle on the picture.
ghost use Rattle.std.specs.Prelude.{◌≡◌};
ghost use Rattle.meaning.specs.Fragments.{triple};
ghost use Rattle.setup.specs.Ready.{Stands, Placed, nothing, Round, On};

use crate::bounds::bounds;
use crate::triangle::ReadyTriangle;
use meaning::geometry::Place;
use meaning::pen::{Frame, Pen};
use meaning::points::{Corner, Point};
use meaning::projection::View;
use meaning::triangle::Triangle;

const NOWHERE: Point = Point {
    at: Place { x: 0, y: 0 },
    depth: 0,
    u: 0,
    v: 0,
    colour: [0, 0, 0, 0],
};

impl ReadyTriangle {
    // One that paints nothing.
    // Kept: no Option, since in the work it takes its sixteen words too, and there an empty frame says it without a flag.
    fn none() -> ReadyTriangle
        ensures { result ≡ nothing }
    {
        ReadyTriangle {
            triangle: Triangle {
                a: NOWHERE,
                b: NOWHERE,
                c: NOWHERE,
            },
            frame: Frame {
                left: 0,
                top: 0,
                right: 0,
                bottom: 0,
            },
        }
    }

    // One that goes round with the clock, with the dots of the frame that it can cover.
    fn boxed(triangle: Triangle, frame: Frame) -> ReadyTriangle
        requires { Placed triangle }
        ensures { Round triangle frame result }
    {
        ReadyTriangle {
            triangle,
            frame: bounds(triangle, frame),
        }
    }

    // A triangle on the picture: one that goes round against the clock is turned, and one without area paints nothing.
    fn clockwise(pen: Pen, triangle: Triangle) -> ReadyTriangle
        requires { Placed triangle }
        ensures { On pen triangle result }
    {
        let area = triangle.turn();
        if area == 0 {
            return ReadyTriangle::none();
        }
        if area < 0 {
            ReadyTriangle::boxed(triangle.turned(), pen.frame)
        } else {
            ReadyTriangle::boxed(triangle, pen.frame)
        }
    }

    // Three corners under a view; one that is hidden makes a triangle that paints nothing.
    pub fn ready(view: View, pen: Pen, corners: [Corner; 3]) -> ReadyTriangle
        ensures stands { Stands pen view (triple corners) result }
        ensures placed { Placed result.triangle }
    {
        match view.triangle(corners) {
            Some(triangle) => ReadyTriangle::clockwise(pen, triangle),
            None => ReadyTriangle::none(),
        }
    }
}
