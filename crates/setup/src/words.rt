// Triangles in lent work, sixteen words for each.
// Kept: words of one lent slice, told by their places. The rule is that no memory is used but what is lent, and work is lent as words.
ghost use Rattle.std.specs.Prelude.{◌≡◌, ℕ, ◌+◌, ◌<◌, ◌≤◌, ◌⊎◌, length, slice_index};
ghost use Rattle.std.specs.Int.Signed.{mag};
ghost use Rattle.setup.specs.Ready.{Placed};
ghost use Rattle.setup.specs.Words.{coordinate_in, low, high, colour_in, point_in, triangle_in, triangle_of};

use crate::triangle::ReadyTriangle;
use meaning::geometry::Place;
use meaning::pen::Frame;
use meaning::points::Point;
use meaning::triangle::Triangle;
use std::array;

// A coordinate as its distance from the least one, which wants no sign.
fn distance(x: i32) -> u32
    requires { mag x < 524288 }
    ensures { coordinate_in result ≡ x }
{
    (x + 524_288) as u32
}

// The coordinate at a distance, of which twenty bits count.
fn coordinate(distance: u32) -> i32
    ensures { result ≡ coordinate_in distance }
{
    (distance % 1_048_576) as i32 - 524_288
}

// Two numbers in the halves of a word.
fn pair(first: u16, second: u16) -> u32
    ensures low { low result ≡ first }
    ensures high { high result ≡ second }
{
    u32::from(first) + 65_536 * u32::from(second)
}

fn low_half(word: u32) -> u16
    ensures { result ≡ low word }
{
    (word % 65_536) as u16
}

fn high_half(word: u32) -> u16
    ensures { result ≡ high word }
{
    (word / 65_536) as u16
}

fn colour_word(colour: [u8; 4]) -> u32
    ensures { colour_in result ≡ colour }
{
    u32::from_le_bytes(colour)
}

fn unpack_point(x: u32, y: u32, depth: u16, texture: u32, colour: u32) -> Point
    ensures { result ≡ point_in x y depth texture colour }
{
    let at = Place {
        x: coordinate(x),
        y: coordinate(y),
    };
    let colour = colour.to_le_bytes();
    Point {
        at,
        depth,
        u: low_half(texture),
        v: high_half(texture),
        colour,
    }
}

// The triangle of sixteen words.
fn unpack(words: [u32; 16]) -> ReadyTriangle
    ensures { result ≡ triangle_in (λ n. slice_index words n) }
{
    let (depth_a, depth_b, depth_c) = (low_half(words[6]), high_half(words[6]), low_half(words[7]));
    ReadyTriangle {
        triangle: Triangle {
            a: unpack_point(words[0], words[1], depth_a, words[8], words[11]),
            b: unpack_point(words[2], words[3], depth_b, words[9], words[12]),
            c: unpack_point(words[4], words[5], depth_c, words[10], words[13]),
        },
        frame: Frame {
            left: low_half(words[14]),
            top: low_half(words[15]),
            right: high_half(words[14]),
            bottom: high_half(words[15]),
        },
    }
}

// The sixteen words of a triangle.
fn pack(ready: ReadyTriangle) -> [u32; 16]
    requires { Placed ready.triangle }
    ensures { triangle_in (λ n. slice_index result n) ≡ ready }
{
    let Triangle { a, b, c } = ready.triangle;
    let frame = ready.frame;
    [
        distance(a.at.x),
        distance(a.at.y),
        distance(b.at.x),
        distance(b.at.y),
        distance(c.at.x),
        distance(c.at.y),
        pair(a.depth, b.depth),
        pair(c.depth, 0),
        pair(a.u, a.v),
        pair(b.u, b.v),
        pair(c.u, c.v),
        colour_word(a.colour),
        colour_word(b.colour),
        colour_word(c.colour),
        pair(frame.left, frame.right),
        pair(frame.top, frame.bottom),
    ]
}

// Puts a triangle into the work, from word `at` on.
pub fn store(work: &mut [u32], at: usize, ready: ReadyTriangle)
    requires room { at + 16 ≤ length work.old }
    requires placed { Placed ready.triangle }
    ensures stored { triangle_of work.new at ≡ ready }
    ensures others { (k : ℕ) → (k < at) ⊎ (at + 16 ≤ k) → slice_index work.new k ≡ slice_index work.old k }
{
    work[at..at + 16].copy_from_slice(&pack(ready));
}

// The triangle that the work has from word `at` on.
#[tactic(auto, unfolding(crate::specs::Words::triangle_in))]
pub fn load(work: &[u32], at: usize) -> ReadyTriangle
    requires { at + 16 ≤ length work.now }
    ensures { result ≡ triangle_of work.now at }
{
    unpack(array::from_fn(|n| work[at + n]))
}
