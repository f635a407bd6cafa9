// A sprite that was not refused, copied row by row. What is off the screen is cut off before the
// loops, so no pixel is tested for being on it.
ghost use Rattle.std.specs.Prelude.{◌≡◌, ◌+◌, ◌*◌};
ghost use Rattle.laws.specs.Cells.{map_range};
ghost use Rattle.screen.specs.Plane.{width, height};
ghost use Rattle.sprite.specs.Sprite.{place_of, sprite_byte, sprite_plane};
ghost use Rattle.sprite.specs.Spans.{Reached, AtRow, AtPixel};

use crate::cutout::Cutout;
use crate::span::{Span, span_of};
use crate::tone::write_texel;
use screen::plane::{PLANE_BYTES, VPU_HEIGHT, VPU_WIDTH};

// Texel n, over the pixel (x, y). With alpha 0 it leaves the pixel as it is.
fn draw_texel(plane: &mut [u8; PLANE_BYTES], cut: Cutout, x: usize, y: usize, n: usize)
    requires at_pixel { AtPixel cut.sprite x y }
    requires n_value { n ≡ place_of cut.sprite x y }
    ensures { plane.new ≡ map_range (sprite_byte cut.entry.sprite cut.entry.texels.now) ((y * width + x) * 4) ((y * width + x) * 4 + 4) plane.old }
{
    let texel = texel::half(cut.texels, n);
    if texel % 16 != 0 {
        write_texel(plane, x, y, texel);
    }
}

// Row `row` of the texture, to row y of the screen.
fn draw_row(plane: &mut [u8; PLANE_BYTES], cut: Cutout, columns: Span, y: usize, row: usize)
    requires reached { Reached cut.sprite.x cut.sprite.width width columns }
    requires at_row { AtRow cut.sprite y row }
    ensures { plane.new ≡ map_range (sprite_byte cut.entry.sprite cut.entry.texels.now) (y * width * 4) ((y * width + width) * 4) plane.old }
{
    let first = row * cut.sprite.stride + (cut.sprite.source_x + columns.skip);
    for x in columns.start..columns.end {
        draw_texel(plane, cut, x, y, first + (x - columns.start));
    }
}

fn draw_rows(plane: &mut [u8; PLANE_BYTES], cut: Cutout, columns: Span, rows: Span)
    requires reached { Reached cut.sprite.x cut.sprite.width width columns }
    requires reached_2 { Reached cut.sprite.y cut.sprite.height height rows }
    ensures { plane.new ≡ sprite_plane cut.entry.sprite cut.entry.texels.now plane.old }
{
    for y in rows.start..rows.end {
        draw_row(
            plane,
            cut,
            columns,
            y,
            cut.sprite.source_y + (rows.skip + (y - rows.start)),
        );
    }
}

pub fn draw(plane: &mut [u8; PLANE_BYTES], cut: Cutout)
    ensures { plane.new ≡ sprite_plane cut.entry.sprite cut.entry.texels.now plane.old }
{
    let columns = span_of(cut.sprite.x, cut.sprite.width, VPU_WIDTH);
    let rows = span_of(cut.sprite.y, cut.sprite.height, VPU_HEIGHT);
    draw_rows(plane, cut, columns, rows);
}
