// The edges of a triangle over the dots of a picture, told by sums.
ghost use Rattle.std.specs.Prelude.{◌≡◌, true, int_le};
ghost use Rattle.std.specs.Int.Signed.{mag};
ghost use Rattle.meaning.specs.Meaning.{turns, edge, middle, covers};
ghost use Rattle.meaning.specs.Fits.{PlaceFits};
ghost use Rattle.meaning.specs.Fragments.{Of};
ghost use Rattle.setup.specs.Ready.{Sound};
ghost use Rattle.coverage.specs.Steps.{across_gain, down_gain, least_side, past_one, Gains};
ghost use Rattle.coverage.specs.Walks.{SeenFrom, within, past};

use crate::per_edge::PerEdge;
use fixed_point::difference;
use meaning::fragment::Fragment;
use meaning::geometry::{Place, is_owner, middle_of, side};
use meaning::triangle::Triangle;
use meaning::weights::Weights;

// A triangle that goes round with the clock, twice its area, and what the sides of a dot's middle gain at the next dot of the row and at the dot below.
// A middle is inside an edge if its side is `least` or more: 0 if the edge owns the places on it, else 1.
#[derive(Clone, Copy)]
pub(crate) struct Outline {
    pub triangle: Triangle,
    pub area: u128,
    pub across: PerEdge,
    pub down: PerEdge,
    pub least: PerEdge,
    ghost sound: { Sound triangle },
    ghost whole: { area ≡ mag (turns triangle.a triangle.b triangle.c) },
    ghost gains: { Gains triangle across down least },
}

// What an edge's side gains from one middle to the next of the row. It is 256 from one to the next, so no step is rounded.
fn across(p: Place, q: Place) -> i64
    ensures { result ≡ across_gain p q }
{
    256 * difference(p.y, q.y)
}

// And to the middle below.
fn down(p: Place, q: Place) -> i64
    ensures { result ≡ down_gain p q }
{
    256 * difference(q.x, p.x)
}

// The least side of a place inside.
fn least(p: Place, q: Place) -> i64
    ensures { result ≡ least_side p q }
{
    if is_owner(p, q) { 0 } else { 1 }
}

// Whether a place on this side of an edge is inside.
fn is_inside(side: i64, least: i64) -> bool
    ensures { result ≡ int_le least side }
{
    side >= least
}

// Whether it is outside, and with it all that follow in its row: none of them lies nearer.
fn is_past(side: i64, across: i64, least: i64) -> bool
    ensures { result ≡ past_one across least side }
{
    side < least && across <= 0
}

// The side of dot (i, j).
fn side_at(p: Place, q: Place, i: u16, j: u16) -> i64
    requires { (PlaceFits p) × (PlaceFits q) }
    ensures { result ≡ edge p q (middle i j) }
{
    side(p, q, middle_of(i, j)) as i64
}

impl Outline {
    pub(crate) fn of(triangle: Triangle) -> Outline
        requires { Sound triangle }
        ensures { result.triangle ≡ triangle }
    {
        Outline {
            triangle,
            area: triangle.turn().unsigned_abs(),
            across: PerEdge::of(triangle, across),
            down: PerEdge::of(triangle, down),
            least: PerEdge::of(triangle, least),
        }
    }

    // The sides of dot (i, j).
    pub(crate) fn sides_at(self, i: u16, j: u16) -> PerEdge
        ensures { SeenFrom self.triangle (middle i j) result }
    {
        PerEdge::of(self.triangle, |p, q| side_at(p, q, i, j))
    }

    // Whether the dot with these sides is covered.
    pub(crate) fn holds(self, sides: PerEdge) -> bool
        ensures { result ≡ within self.least sides }
    {
        is_inside(sides.ab, self.least.ab)
            && is_inside(sides.bc, self.least.bc)
            && is_inside(sides.ca, self.least.ca)
    }

    // Whether it is not covered, nor any that follows in its row.
    pub(crate) fn is_passed(self, sides: PerEdge) -> bool
        ensures { result ≡ past self.across self.least sides }
    {
        is_past(sides.ab, self.across.ab, self.least.ab)
            || is_past(sides.bc, self.across.bc, self.least.bc)
            || is_past(sides.ca, self.across.ca, self.least.ca)
    }

    // Dot (i, j) of those that are covered: its sides are the weights of the corners opposite.
    pub(crate) fn fragment(self, sides: PerEdge, i: u16, j: u16) -> Fragment
        requires seen { SeenFrom self.triangle (middle i j) sides }
        requires covered { covers self.triangle.a self.triangle.b self.triangle.c (middle i j) ≡ true }
        ensures { Of self.triangle (middle i j) result }
    {
        let weights = Weights {
            a: u128::from(sides.bc.unsigned_abs()),
            b: u128::from(sides.ca.unsigned_abs()),
            c: u128::from(sides.ab.unsigned_abs()),
            area: self.area,
        };
        Fragment {
            triangle: self.triangle,
            place: middle_of(i, j),
            weights,
        }
    }
}
