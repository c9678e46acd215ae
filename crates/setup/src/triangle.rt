// A triangle made ready to be painted.
use meaning::pen::Frame;
use meaning::triangle::Triangle;

// Kept: no ghost field for `Placed`. The definition of what sixteen words hold makes one of any words, and would have to prove the field there, where no tactic may be called.
// Its corners go round with the clock. Outside the frame, which is its box of dots within the pen's, it paints nothing; one that paints nothing at all has an empty frame.
#[derive(Clone, Copy)]
pub struct ReadyTriangle {
    pub triangle: Triangle,
    pub frame: Frame,
}
