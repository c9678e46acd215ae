// The weights of a triangle's corners at a place that it covers.
ghost use Rattle.std.specs.Prelude.{◌≡◌, ◌+◌, ◌^◌, ◌<◌, ◌≤◌};

// For each corner twice the area opposite, as seen from the place; together they are twice the triangle's area.
#[derive(Clone, Copy)]
pub struct Weights {
    pub a: u128,
    pub b: u128,
    pub c: u128,
    pub area: u128,
    ghost some: { 0 < area },
    ghost sum: { a + b + c ≡ area },
    ghost fits: { area ≤ 2 ^ 67 },
}
