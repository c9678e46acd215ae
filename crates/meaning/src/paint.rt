// What a triangle does to a dot.
ghost use Rattle.std.specs.Prelude.{◌≡◌, ℕ, ◌+◌, ◌*◌, ◌/◌, ◌<◌, ◌≤◌, false, if◌then◌else◌, MatchOption};
ghost use Rattle.meaning.specs.Meaning.{blended, colour_at, depth_at, painted, at_dot, triple_at};
ghost use Rattle.meaning.specs.Textures.{image_if};
ghost use Rattle.meaning.specs.Weights.{holds};
ghost use Rattle.meaning.specs.Fragments.{bringing, mixing, Of, triple};

use crate::brush::Brush;
use crate::fragment::Fragment;
use crate::geometry::{Place, middle_of};
use crate::pen::Mix;
use crate::points::Corner;
use crate::projection::View;
use crate::state::Dot;
use crate::texture::{Texture, sample};
use crate::triangle::Triangle;
use std::array;

// One part of a colour through the same part of the texture's dot, rounded.
fn tint(colour: u8, texel: u8) -> u8
    ensures { result ≡ (colour * texel + 127) / 255 }
{
    ((u32::from(colour) * u32::from(texel) + 127) / 255) as u8
}

// A colour onto another, part by part; the fourth part of the new one says how much of it shows.
fn mix_colours(mix: Mix, new: [u8; 4], old: [u8; 3]) -> [u8; 3]
    ensures { result ≡ mixing mix new old }
{
    array::from_fn(|k| mix.mix(new[3], new[k], old[k]))
}

impl Triangle {
    // A place in the triangle with its weights, or nothing where the triangle goes round against the clock or the place is not in it.
    pub fn fragment(self, place: Place) -> Option<Fragment>
        ensures { MatchOption result (holds self.a self.b self.c place ≡ false) (λ f. Of self place f) }
    {
        let weights = self.weights(place)?;
        Some(Fragment {
            triangle: self,
            place,
            weights,
        })
    }
}

impl Fragment {
    // What lies here between f, g and h at the corners: never beyond the largest of them.
    pub fn blend(self, f: u16, g: u16, h: u16) -> u16
        ensures value { result ≡ blended self.triangle.a self.triangle.b self.triangle.c self.place f g h }
        ensures bound { (top : ℕ) → f ≤ top → g ≤ top → h ≤ top → result ≤ top }
    {
        self.weights.blend(f, g, h)
    }

    pub fn depth(self) -> u16
        ensures { result ≡ depth_at self.triangle.a self.triangle.b self.triangle.c self.place }
    {
        let Triangle { a, b, c } = self.triangle;
        self.blend(a.depth, b.depth, c.depth)
    }

    // Part k of the colour between the corners.
    fn part(self, k: usize) -> u8
        requires { k < 4 }
        ensures { result ≡ colour_at self.triangle.a self.triangle.b self.triangle.c self.place k }
    {
        let Triangle { a, b, c } = self.triangle;
        let f = u16::from(a.colour[k]);
        let g = u16::from(b.colour[k]);
        let h = u16::from(c.colour[k]);
        self.blend(f, g, h) as u8
    }

    // The colour that the triangle brings, through the texture.
    #[tactic(auto, unfolding(crate::specs::Meaning::brings))]
    pub fn colour(self, texture: Option<Texture<'_>>) -> [u8; 4]
        ensures { result ≡ bringing (image_if texture.entry) self.triangle.a self.triangle.b self.triangle.c self.place }
    {
        let Triangle { a, b, c } = self.triangle;
        let u = self.blend(a.u, b.u, c.u);
        let v = self.blend(a.v, b.v, c.v);
        let texel = sample(texture, u, v);
        array::from_fn(|k| tint(self.part(k), texel[k]))
    }

    // What the dot here becomes.
    pub fn paint(self, brush: Brush<'_>, dot: Dot) -> Dot
        ensures { result ≡ painted (image_if brush.entry.texture) brush.entry.pen self.triangle.a self.triangle.b self.triangle.c self.place dot }
    {
        let pen = brush.pen;
        let depth = self.depth();
        if !pen.test.is_passed(depth, dot.depth) {
            return dot;
        }
        let old = dot.colour;
        let colour = mix_colours(pen.mix, self.colour(brush.texture), old);
        let depth = if pen.keeps { depth } else { dot.depth };
        Dot { colour, depth }
    }
}

impl Triangle {
    // What a triangle that goes round with the clock makes of a dot with its middle at the place.
    fn paint_if_covered(self, brush: Brush<'_>, place: Place, dot: Dot) -> Dot
        ensures { result ≡ (if holds self.a self.b self.c place then painted (image_if brush.entry.texture) brush.entry.pen self.a self.b self.c place dot else dot) }
    {
        match self.fragment(place) {
            Some(fragment) => fragment.paint(brush, dot),
            None => dot,
        }
    }

    // What the triangle makes of dot (i, j): one that goes round against the clock is turned, one without area paints nothing.
    pub fn paint(self, brush: Brush<'_>, i: u16, j: u16, dot: Dot) -> Dot
        ensures { result ≡ at_dot (image_if brush.entry.texture) brush.entry.pen self.a self.b self.c i j dot }
    {
        if !brush.pen.frame.contains(i, j) {
            return dot;
        }
        let place = middle_of(i, j);
        if self.turn() < 0 {
            self.turned().paint_if_covered(brush, place, dot)
        } else {
            self.paint_if_covered(brush, place, dot)
        }
    }
}

// What a triangle in space makes of dot (i, j) under a view; one with a hidden corner paints nothing.
pub fn paint_corners(
    brush: Brush<'_>,
    view: View,
    corners: [Corner; 3],
    i: u16,
    j: u16,
    dot: Dot,
) -> Dot
    ensures { result ≡ triple_at (image_if brush.entry.texture) brush.entry.pen view (triple corners) i j dot }
{
    match view.triangle(corners) {
        Some(triangle) => triangle.paint(brush, i, j, dot),
        None => dot,
    }
}
