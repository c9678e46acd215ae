// Triangles on the picture: the places that they cover, and what lies between their corners.
ghost use Rattle.std.specs.Prelude.{◌≡◌, ℕ, ◌^◌, ◌≤◌, false, MatchOption};
ghost use Rattle.std.specs.Int.Signed.{mag};
ghost use Rattle.meaning.specs.Meaning.{turns, covers, weighed, blended};
ghost use Rattle.meaning.specs.Triangles.{turned};
ghost use Rattle.meaning.specs.Weights.{holds, Weighs};
ghost use Rattle.meaning.specs.declared.geometry.Place.{Place};
ghost use Rattle.meaning.specs.declared.points.Point.{Point};

use crate::geometry::{Place, is_inside, side};
use crate::points::Point;
use crate::weights::Weights;

#[derive(Clone, Copy)]
pub struct Triangle {
    pub a: Point,
    pub b: Point,
    pub c: Point,
}

impl Triangle {
    // Twice the area, above 0 if the corners go round with the clock.
    pub fn turn(self) -> i128
        ensures value { result ≡ turns self.a self.b self.c }
        ensures bound { mag result ≤ 2 ^ 66 }
    {
        side(self.a.at, self.b.at, self.c.at)
    }

    // The same corners the other way round.
    pub fn turned(self) -> Triangle
        ensures { result ≡ turned self }
    {
        Triangle {
            b: self.c,
            c: self.b,
            ..self
        }
    }

    // Whether a place is in the triangle, if that goes round with the clock.
    pub fn covers(self, place: Place) -> bool
        ensures { result ≡ covers self.a self.b self.c place }
    {
        is_inside(self.a.at, self.b.at, place)
            && is_inside(self.b.at, self.c.at, place)
            && is_inside(self.c.at, self.a.at, place)
    }

    // The weights of the corners at a place, or nothing where the triangle goes round against the clock or the place is not in it.
    pub fn weights(self, place: Place) -> Option<Weights>
        ensures { MatchOption result (holds self.a self.b self.c place ≡ false) (λ w. Weighs self.a self.b self.c place w) }
    {
        let area = self.turn();
        if area <= 0 || !self.covers(place) {
            return None;
        }
        Some(Weights {
            a: side(self.b.at, self.c.at, place).unsigned_abs(),
            b: side(self.c.at, self.a.at, place).unsigned_abs(),
            c: side(self.a.at, self.b.at, place).unsigned_abs(),
            area: area.unsigned_abs(),
        })
    }
}

impl Weights {
    // What lies there between f, g and h at the corners, rounded down: never beyond the largest of them.
    pub fn blend(self, f: u16, g: u16, h: u16) -> u16
        ensures value { result ≡ weighed self.a self.b self.c self.area f g h }
        ensures meaning { (a b c : Point) (m : Place) → Weighs a b c m self → result ≡ blended a b c m f g h }
        ensures bound { (top : ℕ) → f ≤ top → g ≤ top → h ≤ top → result ≤ top }
    {
        ((self.a * u128::from(f) + self.b * u128::from(g) + self.c * u128::from(h))
            / self.area) as u16
    }
}
