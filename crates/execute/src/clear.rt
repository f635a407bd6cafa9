// 04: flag 1 fills the plane, flag 2 refills both depths.
ghost use Rattle.std.specs.Prelude.{◌≡◌, length};
ghost use Rattle.execute.specs.Paints.{picture, paints_on};
ghost use Rattle.execute.specs.Commands.{rgba_of, clear_painted};

use screen::plane::{PIXELS, PLANE_BYTES, Rgba};
use verdict::Verdict;

#[tactic(auto, unfolding(crate::specs::Commands::rgba_of))]
fn rgba_of(word: u32) -> Rgba
    ensures { result ≡ rgba_of word }
{
    Rgba {
        r: (word / 16777216) as u8,
        g: (word / 65536 % 256) as u8,
        b: (word / 256 % 256) as u8,
        a: (word % 256) as u8,
    }
}

// Flags beyond 3 still clear, and are then refused.
pub fn clear(
    plane: &mut [u8; PLANE_BYTES],
    depth: &mut [i32; PIXELS],
    depth_f32: &mut [f32; PIXELS],
    p: &[u32],
) -> Verdict
    requires { length p.now ≡ 3 }
    ensures value { result ≡ (clear_painted p.now).verdict }
    ensures depth_f32_after { picture plane.new depth.new depth_f32.new ≡ paints_on (clear_painted p.now).paints (picture plane.old depth.old depth_f32.old) }
{
    let flags = p[0];
    if flags % 2 == 1 {
        screen::plane::fill(plane, rgba_of(p[1]));
    }
    if flags / 2 % 2 == 1 {
        screen::depths::refill(depth, depth_f32);
    }
    payload::at_most(p, 0, 3)
}
