// Eight-bit colour brought to five bits and back, with a Bayer pattern that is fixed to the screen.
ghost use Rattle.std.specs.Prelude.{◌≡◌, ◌≤◌};
ghost use Rattle.screen.specs.Dither.{threshold_at, level_of, dither_of};

// Row y % 4, column x % 4.
const BAYER_4X4: [u8; 16] = [0, 8, 2, 10, 12, 4, 14, 6, 3, 11, 1, 9, 15, 7, 13, 5];

// A function that names a constant table has the whole of it written to its frame at each call, so
// a pixel asks once, for all its channels.
pub fn threshold(x: usize, y: usize) -> u8
    ensures { result ≡ threshold_at x y }
{
    BAYER_4X4[(y % 4) * 4 + x % 4]
}

// The original cuts the level at 31. It never passes 31: 255 * 31 leaves no remainder.
#[tactic(auto, unfolding(crate::specs::Dither::level_of))]
fn level(channel: u8, threshold: u8) -> u32
    ensures value { result ≡ level_of channel threshold }
    ensures upper_bound { result ≤ 31 }
{
    let scaled = u32::from(channel) * 31;
    let level = scaled / 255;
    let remainder = scaled % 255;
    if remainder * 32 > (u32::from(threshold) * 2 + 1) * 255 {
        return level + 1;
    }
    level
}

// One channel. The original maps this over three, at (x, y), whose threshold is handed in here.
#[tactic(auto, unfolding(crate::specs::Dither::dither_of))]
pub fn rgb555_dither(channel: u8, threshold: u8) -> u8
    ensures { result ≡ dither_of channel threshold }
{
    let level = level(channel, threshold);
    ((level * 255 + 15) / 31) as u8
}
