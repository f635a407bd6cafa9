// Command 10's seven words: texture number; x, y, width and height of the rectangle in the texture;
// x and y on the screen, with a sign, of the pixel for its first texel.
ghost use Rattle.std.specs.Prelude.{◌≡◌, ◌+◌, cond, leb, length};
ghost use Rattle.verdict.specs.Verdict.{done, refused};
ghost use Rattle.verdict.specs.declared.Reason.TheVariants as reason;
ghost use Rattle.sprite.specs.Words.{fit_verdict, sprite_of};

use flat::tri::{coordinate, signed};
use verdict::{Verdict, out_of_range};

// A rectangle of a texture that has `stride` texels in a row, and where it goes.
#[derive(Clone, Copy, Debug, PartialEq, Eq)]
pub struct Sprite {
    pub stride: usize,
    pub source_x: usize,
    pub source_y: usize,
    pub width: usize,
    pub height: usize,
    pub x: i64,
    pub y: i64,
}

// Do `size` texels from `start` on end inside a side? The sum is of 64 bits, so it does not wrap.
fn inside(start: u32, size: u32, side: u32) -> bool
    ensures { result ≡ leb (start + size) side }
{
    u64::from(start) + u64::from(size) <= u64::from(side)
}

fn check(passes: bool, index: u32) -> Verdict
    ensures { result ≡ cond passes done (refused reason.OutOfRange index) }
{
    if passes {
        Ok(())
    } else {
        Err(out_of_range(index))
    }
}

// What is first found wrong, for a texture of these sides.
#[tactic(auto, unfolding(crate::specs::Words::fit_verdict))]
pub fn verdict_of(p: &[u32], width: u32, height: u32) -> Verdict
    requires { length p.now ≡ 7 }
    ensures { result ≡ fit_verdict p.now width height }
{
    check(p[3] != 0, 3)?;
    check(p[4] != 0, 4)?;
    check(inside(p[1], p[3], width), 3)?;
    check(inside(p[2], p[4], height), 4)?;
    coordinate(p, 5)?;
    coordinate(p, 6)
}

#[tactic(auto, unfolding(crate::specs::Words::sprite_of))]
pub fn sprite_of(p: &[u32], stride: u32) -> Sprite
    requires { length p.now ≡ 7 }
    ensures { result ≡ sprite_of p.now stride }
{
    Sprite {
        stride: stride as usize,
        source_x: p[1] as usize,
        source_y: p[2] as usize,
        width: p[3] as usize,
        height: p[4] as usize,
        x: signed(p[5]),
        y: signed(p[6]),
    }
}
