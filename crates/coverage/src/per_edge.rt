// A number for each edge of a triangle.
ghost use Rattle.std.specs.Prelude.{◌≡◌};
ghost use Rattle.meaning.specs.declared.geometry.Place.{Place};
ghost use Rattle.coverage.specs.Walks.{Fit, plus};

use meaning::geometry::Place;
use meaning::triangle::Triangle;

// The three numbers of a triangle's edges: on which sides of them a place lies, what these sides gain from dot to dot, or from where on they are inside.
#[derive(Clone, Copy)]
pub(crate) struct PerEdge {
    pub ab: i64,
    pub bc: i64,
    pub ca: i64,
}

impl PerEdge {
    // What a function makes of each edge's two ends.
    pub(crate) fn of<F: Fn(Place, Place) -> i64>(triangle: Triangle, f: F) -> PerEdge
        requires ab { F.pre f triangle.a.at triangle.b.at }
        requires bc { F.pre f triangle.b.at triangle.c.at }
        requires ca { F.pre f triangle.c.at triangle.a.at }
        ensures ab { F.post f triangle.a.at triangle.b.at result.ab }
        ensures bc { F.post f triangle.b.at triangle.c.at result.bc }
        ensures ca { F.post f triangle.c.at triangle.a.at result.ca }
    {
        let Triangle { a, b, c } = triangle;
        PerEdge {
            ab: f(a.at, b.at),
            bc: f(b.at, c.at),
            ca: f(c.at, a.at),
        }
    }

    pub(crate) fn plus(self, gain: PerEdge) -> PerEdge
        requires { Fit (plus self gain) }
        ensures { result ≡ plus self gain }
    {
        PerEdge {
            ab: self.ab + gain.ab,
            bc: self.bc + gain.bc,
            ca: self.ca + gain.ca,
        }
    }
}
