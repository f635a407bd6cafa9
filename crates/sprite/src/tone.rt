// A texel on the screen. Its channels have the values 0, 17, 34 and so on, for which the dither takes
// fewer steps than for any colour.
ghost use Rattle.std.specs.Prelude.{◌≡◌, ◌+◌, ◌*◌, ◌<◌};
ghost use Rattle.laws.specs.Cells.{map_range};
ghost use Rattle.screen.specs.Dither.{dither_of};
ghost use Rattle.screen.specs.Plane.{width, height, paint};
ghost use Rattle.texel.specs.Texel.{nibbles_of};

use screen::dither::threshold;
use screen::plane::{PLANE_BYTES, VPU_WIDTH};

// `rgb555_dither` for a digit of a texel, which stands for 17 times as much.
// Stays: with `rgb555_dither` itself a pixel takes 1.7 times as long (docs/DECISIONS.md, "Speed").
fn tone(digit: u32, threshold: u32) -> u8
    requires { (digit < 16) × (threshold < 16) }
    ensures { result ≡ dither_of (digit * 17) threshold }
{
    if digit * 32 > threshold * 30 + 15 {
        return (((digit * 2 + 1) * 255 + 15) / 31) as u8;
    }
    ((digit * 2 * 255 + 15) / 31) as u8
}

// `write_pixel` for the sixteen bits of a texel.
pub fn write_texel(plane: &mut [u8; PLANE_BYTES], x: usize, y: usize, texel: u32)
    requires x_lt_width { (x < width) × (y < height) }
    requires texel_bound { texel < 65536 }
    ensures { plane.new ≡ map_range (paint (nibbles_of texel)) ((y * width + x) * 4) ((y * width + x) * 4 + 4) plane.old }
{
    let index = (y * VPU_WIDTH + x) * 4;
    let t = threshold(x, y) as u32;
    plane[index] = tone(texel / 4096 % 16, t);
    plane[index + 1] = tone(texel / 256 % 16, t);
    plane[index + 2] = tone(texel / 16 % 16, t);
    plane[index + 3] = (texel % 16 * 17) as u8;
}
