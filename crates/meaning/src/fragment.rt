// A place that a triangle covers, with what is needed to paint it.
ghost use Rattle.meaning.specs.Weights.{Weighs};

use crate::geometry::Place;
use crate::triangle::Triangle;
use crate::weights::Weights;

// The triangle goes round with the clock and has the place in it; the weights are its corners' there.
#[derive(Clone, Copy)]
pub struct Fragment {
    pub triangle: Triangle,
    pub place: Place,
    pub weights: Weights,
    ghost weighs: { Weighs triangle.a triangle.b triangle.c place weights },
}
