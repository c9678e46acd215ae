// All tiles of the picture.
ghost use Rattle.std.specs.Prelude.{◌≡◌, ◌+◌, ◌≤◌, min};
ghost use Rattle.maker.specs.declared.picture.TheConstants.{TILE};
ghost use Rattle.maker.specs.Tiles.{Painted};

use crate::tiles::paint_tile;
use meaning::pen::Frame;
use reference::canvas::Canvas;
use reference::entry::Draws;

// Few enough dots for a tile to stay in the cache during all commands.
const TILE: u16 = 16;

// Where a tile ends that starts at `start`: the last one is cut at the picture's edge.
fn tile_end(start: u16, edge: u16) -> u16
    ensures { result ≡ min (start + TILE) edge }
{
    start.saturating_add(TILE).min(edge)
}

// A row of tiles.
// Kept: that a frame ends within the picture is asked of it here, in tiles.rt, in `tile` and in `coverage`. It is a fact of two values, frame and size, and a type for it would be made at each call.
fn paint_band(canvas: &mut Canvas<'_>, band: Frame)
    requires across { band.left ≤ band.right }
    requires inside { band.bottom ≤ canvas.old.file.summary.size.height }
    ensures { Painted band canvas.old canvas.new }
{
    for left in (band.left..band.right).step_by(usize::from(TILE)) {
        let tile = Frame {
            left,
            right: tile_end(left, band.right),
            ..band
        };
        paint_tile(canvas, tile);
    }
}

// The whole picture, band by band.
pub(crate) struct TileByTile;

impl Draws for TileByTile {
    fn draw(canvas: &mut Canvas<'_>) {
        let size = canvas.file.summary.size;
        for top in (0..size.height).step_by(usize::from(TILE)) {
            let band = Frame {
                left: 0,
                top,
                right: size.width,
                bottom: tile_end(top, size.height),
            };
            paint_band(canvas, band);
        }
    }
}
